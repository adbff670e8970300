// Stores: note and bar records in lent words, and diagnostics in a lent list.
#![tactic(auto)]

pub mod bar;
pub mod cells;
pub mod copy;
pub mod diagnostic;
pub mod group;
pub mod note;
