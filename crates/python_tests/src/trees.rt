//! Modules as text.
//!
//! Each node is its name and its parts in brackets. What stands for itself in a text is written in hexadecimal digits.
//! `tools/compare/python_trees.py` prints the tree that CPython reads in the same form. Begin with `module_text`.

mod block;
mod call;
mod expression;
mod module;
mod piece;
mod statement;

pub use module::module_text;
