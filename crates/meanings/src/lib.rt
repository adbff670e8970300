// The first two layers of the program `layers`: the typed line with what is remarked under it, and
// its marks, what each is and what became of it.
#![tactic(auto)]

mod explanation; // explanation.rt: what was found, and what it means
mod meaning; // meaning.rt: the marks, what each is and what became of it
mod openings; // openings.rt: where groups, beams and figures were opened
mod pieces; // pieces.rt: pieces of a text that fit a row
pub mod refusals; // refusals.rt: refusals in words
pub mod shown; // shown.rt: a text and what came of it
mod typed; // typed.rt: the typed line
