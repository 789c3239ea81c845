//! The registered keys of a simulator.
//!
//! A [`Book`] holds a flag for each edge key of each signal and for each of the three phases, and it counts what was registered, removed and fired.
//! Which times are registered is known to what holds the book. Begin with [`Book::new`].
#![tactic(auto)]

mod book;

pub use book::Book;
