//! The table of triggers.
#![tactic(auto)]

mod awaiting;
mod awaits;
mod calls;
mod cause_index;
mod causes;
mod chains;
mod cursors;
mod entries;
mod fired;
mod firing;
mod holding;
mod keeper;
mod members;
mod name;
mod parting;
mod record_calls;
mod records;
mod rings;
mod serving;
mod table;
mod task_index;
mod tasks;

pub use entries::{CauseRecord, TaskRecord};
pub use keeper::TriggerTable;
pub use members::Member;
pub use records::Records;
