// The tokens of the data: how they are cut, and what each one says.
#![tactic(auto)]

pub mod attributes; // attributes.rt: clefs, keys and meters
pub mod cut; // cut.rt: a token's size, its place, the tokens in order
pub mod kinds; // kinds.rt: what a token is
pub mod numbers; // numbers.rt: digits up to a limit
pub mod rhythm; // rhythm.rt: steps, octaves, accidentals, barlines, lengths and patterns
