//! A bounded ring of records of a watch queue. One that finds no room is dropped, and the last one kept is marked.
#![tactic(auto)]

mod laws;
mod ring;

pub use laws::gives_its_stream;
pub use ring::NoteRing;
