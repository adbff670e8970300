// The catalogue card: records written as a card, and a card read back into records.
#![tactic(auto)]

pub mod error;
mod heads;
mod notes;
mod numbers;
pub mod read;
mod reading;
pub mod width;
mod words;
pub mod write;
mod writing;
