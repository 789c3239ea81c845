//! The targets of assignments, whole: names with selects, and targets in braces.
//!
//! [`target`] goes over the target of an assignment in a procedure once, and says what is broken first in it, or its width and the
//! target of `gpi` that gets its updates. [`net_target`] does so for a continuous assignment, and says which digits of nets are driven
//! then; [`net_name`] for a name alone. [`TargetParts`] are parts of braces, put together from the last one to the first ([`together`]),
//! and [`braced`] is the whole of them, whatever found them.
mod balanced;
mod braces;
mod continuous;
mod nets;
mod parts;
mod walk;

pub use braces::braced;
pub use continuous::{net_target, together};
pub use nets::net_name;
pub use parts::TargetParts;
pub use walk::target;
