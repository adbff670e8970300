// The marks of the data, its tokens, with the records that they stored; the look-back over them;
// records and diagnostics by their fields; and what marks are in words. For the program `layers`.
#![tactic(auto)]

pub mod findings; // findings.rt: diagnostics by their fields
pub mod kind; // kind.rt: what the look-backs ask of a token
pub mod lookback; // lookback.rt: the marks in order and the look-back
pub mod mark; // mark.rt: a mark
pub mod records; // records.rt: records by their fields
pub mod signs; // signs.rt: marks in words that the records have no part in
pub mod waiting; // waiting.rt: what became of marks that wait
