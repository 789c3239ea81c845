//! Expressions, and what they give.
//!
//! A row is parted by a tab: the rule that it shows, and an expression. A task with the names of `expressions/variables.rt` evaluates it, which
//! sees the design of `expressions/scene.rt`; `expressions/shown.rt` tells how what comes out is printed.

mod answer;
mod scene;
mod shown;
mod variables;

pub use answer::answer;
