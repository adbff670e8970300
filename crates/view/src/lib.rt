// What each token makes of the reading, over the lent cells: definitions, and the laws by which
// they are the rules'.
#![tactic(auto)]

pub mod refusal; // refusal.rt: why a text is refused, and where
