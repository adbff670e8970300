// Rows of the output and the field's terms in them, for the program `layers`.
#![tactic(auto)]

pub mod characters; // characters.rt: characters of a text
pub mod columns; // columns.rt: columns
pub mod headings; // headings.rt: headings
pub mod terms; // terms.rt: the field's terms
pub mod text; // text.rt: parts of a text
