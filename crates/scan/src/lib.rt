// The bytes of a text: characters and blanks, runs of bytes, parts, lines and fields.
#![tactic(auto)]

pub mod characters; // characters.rt: UTF-8, White_Space, trimming
pub mod classes; // classes.rt: classes of bytes and their runs
pub mod lines; // lines.rt: parts, lines and fields
