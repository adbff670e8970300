// The notes and the bars of a reading as tables: the third and the fourth layer of the program
// `layers`.
#![tactic(auto)]

pub mod bars; // bars.rt: the fourth layer
pub mod notes; // notes.rt: the third layer
mod table; // table.rt: rows of records, where one may stand for several
