//! Digits that something drives.

ghost use Rattle.std.specs.Prelude.{◌≡◌};
ghost use Rattle.v_process.specs.Drive.Digits.{IsInVector, drive_of};
ghost use Rattle.v_process.specs.Drive.Masks.{mask};

use gpi::SigId;

/// Digits of a net that something drives, by their places.
#[derive(Clone, Copy)]
pub struct Drive {
    /// The net.
    pub signal: SigId,
    /// The place of the lowest digit.
    pub low: u8,
    /// How many digits, from that one upwards.
    pub count: u8,
}

impl Drive {
    /// The bits of these places.
    pub(crate) fn mask(self) -> u128
        requires { IsInVector (drive_of self) }
        ensures { result ≡ mask (drive_of self) }
    {
        if self.count == 0 {
            0
        } else {
            (u128::MAX >> (128 - self.count)) << self.low
        }
    }
}
