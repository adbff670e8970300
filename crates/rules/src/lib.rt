// The specification as definitions, in specs/: no code.
#![tactic(auto)]
