//! Which rule the uses of a line break: an unknown name, or what is out of place.
//!
//! [`Scope`] is what is known around a line. [`of_tree`], [`of_statement`], [`of_header`], [`of_line`] and [`of_defaults`] go through the
//! trees of a line and answer the rule that their uses break, and [`of_block`] answers the first line of a block that breaks one.
//! What else a line may break, as a name that is defined twice, is left to others.
mod block;
#[tactic(auto, using(crate::proofs::UsesLemmas::Answers::answers))]
mod call;
#[tactic(auto, using(crate::proofs::UsesLemmas::Answers::answers))]
mod expression;
#[tactic(auto, using(crate::proofs::UsesLemmas::Answers::answers))]
mod header;
#[tactic(auto, using(crate::proofs::UsesLemmas::Answers::answers))]
mod line;
mod order;
mod scope;
#[tactic(auto, using(crate::proofs::UsesLemmas::Answers::answers))]
mod statement;

pub use block::{of_block, refused_at};
pub use expression::{of_tree, of_trees};
pub use header::of_header;
pub use line::{expects_kind, of_defaults, of_line};
pub use order::first_of;
pub use scope::Scope;
pub use statement::of_statement;
