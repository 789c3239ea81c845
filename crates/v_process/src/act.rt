//! What statements are, from what was found in their parts.
//!
//! [`assignment`] checks the target and the value of an assignment in a procedure, and says what is broken first in it, or the statement
//! of `gpi` that it is; [`assigned`] says so from what was found in both, and [`assign`] is the assignment where no rule is broken. A [`Moment`] is
//! when its updates come.
//! [`without_effect`], [`if_then`], [`if_else`], [`block`] and [`case`] put together statements that were found, whatever found them, so
//! that neither their scopes nor their texts need be at hand. [`BlockParts`] are the statements of a block, [`CaseParts`] the items of a case
//! statement and [`CaseLabels`] the labels of an item, each put together from the last one to the first.
mod assignments;
mod cases;
mod choices;
mod moment;
mod sequences;
mod waiting;

pub use assignments::{assign, assigned, assignment};
pub use cases::{CaseLabels, CaseParts, LabeledItem, case};
pub use choices::{if_else, if_then, without_effect};
pub use moment::Moment;
pub use sequences::{BlockParts, block};
