//! The text of a design: its flat design under a top, or the rule by which it is refused, with its line and column.
//!
//! Begin with [`read_design`]. A text is a design where it has tokens (`v_lex`), modules spell them (`v_parse`), and these break no
//! rule of elaboration (`v_elab`) under the top. Otherwise a [`DesignRefusal`] tells the [`DesignRule`] that is broken first, and where.
#![tactic(auto)]

mod fault;
mod laws;
mod reader;
mod rule;

pub use fault::{DesignFault, DesignRefusal};
pub use laws::{one_answer, step_is_positive};
pub use reader::read_design;
pub use rule::DesignRule;
