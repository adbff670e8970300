// No code: every accepted reading has a card, proved of the rules and of the card.
#![tactic(auto)]
