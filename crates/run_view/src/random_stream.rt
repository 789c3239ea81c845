//! Random whole numbers, as `random.randint` of a tests file draws them.
//!
//! [`RandomStream`] is made of a seed, and [`RandomStream::draw`] gives the next number of a range. The numbers are those of the generator
//! PCG XSH RR 64/32, which `specs/Generator.antt` states by arithmetic modulo 2^64, and not those of CPython. Which ranges are refused is
//! left to the crates above.
mod laws;
mod stream;

pub use laws::worked_rows;
pub use stream::RandomStream;
