//! The numbers of a row.

use std::str;
use table_rows::number_of;

/// The whole number that decimal digits say, with a `-` in front or without; 0 where it is beyond 128 bits.
pub(crate) fn whole_of(part: &[u8]) -> i128 {
    match str::from_utf8(part) {
        Ok(text) => i128::from_str_radix(text, 10).unwrap_or(0),
        Err(_) => 0,
    }
}

/// The natural number that decimal digits say, 65,535 where it is beyond.
pub(crate) fn short_of(part: &[u8]) -> u16 {
    number_of(part).min(65_535) as u16
}
