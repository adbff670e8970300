// Why each letter, rest and copy is as it is: the marks that the look-back stops at, for the
// program `layers`.
#![tactic(auto)]

mod before; // before.rt: what holds behind the marks before a letter or rest
mod copies; // copies.rt: copies
mod length; // length.rt: lengths, graces and chords
mod letter; // letter.rt: letters
pub mod why; // why.rt: a why for each letter, rest and copy
