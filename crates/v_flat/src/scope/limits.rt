//! How wide a vector may be.

pub use four_value::MOST_DIGITS;

/// What stands for each width beyond [`MOST_DIGITS`], where widths are cut.
pub const TOO_WIDE: u8 = MOST_DIGITS + 1;
