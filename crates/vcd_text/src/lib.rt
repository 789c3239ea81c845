//! The VCD text of a traced run (IEEE 1364-2005, clause 18).
//!
//! `specs/` says which text that is, and which texts a reader takes. [`VcdSink`] is given the lines of a run and writes the text: begin with it.
//! [`read`] tells the changes of a text.
//! [`TracedSignals`] are what it knows of the design.
//! [`texts_are_whole`] says what it has written then, and [`texts_tell_changes`] that the text is that of one list of changes.
#![tactic(auto)]

mod change;
mod declarations;
mod forms;
mod laws;
mod lines;
mod memories;
mod opening;
mod read_text;
mod reader;
mod signals;
mod sink;
mod spelling;
mod traced_line;

pub use change::{Change, VcdFault};
pub use laws::{
    changes_are_told, fronts_go_on, refused_ends_are_of_no_text, refused_lines_are_in_no_text,
    texts_are_read_once, texts_are_whole, texts_read_back, texts_tell_changes,
    traced_lines_become_changes,
};
pub use read_text::read;
pub use signals::TracedSignals;
pub use sink::VcdSink;
