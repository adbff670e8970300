// The reader: a text's fields and data into notes, bars and diagnostics, in lent cells.
#![tactic(auto)]

mod accidentals; // accidentals.rt: the open bar's accidentals
mod attributes; // attributes.rt: clefs, keys and meters
mod bars; // bars.rt: barlines
pub mod fields; // fields.rt: what the fields of a text set and diagnose
mod figures; // figures.rt: figures and repeated bars
mod groups; // groups.rt: beams and groups
mod marks; // marks.rt: ties and trills
mod notes; // notes.rt: letters and rests
pub mod read; // read.rt: the entry, and the data whole
mod remark; // remark.rt: what is remarked of a token
mod starts; // starts.rt: the open bar, and where a group, beam or figure starts
pub mod state; // state.rt: what the reader holds between two tokens
mod voice; // voice.rt: octaves, and what waits for the next letter
mod walk; // walk.rt: the walk over the data's tokens
