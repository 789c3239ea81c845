//! The digits of a vector as a text.
ghost use Rattle.std.specs.Prelude.{◌≡◌, length, take};
ghost use Rattle.four_value.specs.Vector as meaning;

use super::Bits;

impl Bits {
    /// The digits in ASCII, the most significant first, as the format `%b` prints them (clause 17.1.1.4): `0`, `1`, `x`
    /// and `z` in the first `width` bytes. The rest are spaces.
    #[tactic(auto, using(crate::proofs::Letters::text_front))]
    pub fn text(self) -> [u8; 128]
        ensures is { result ≡ meaning.text self }
        ensures front { take (length self) result ≡ meaning.digit_letters self }
    {
        let mut bytes = [b' '; 128];
        let width = self.width();
        for i in 0..width {
            bytes[i as usize] = self.digit(width - 1 - i).byte();
        }
        bytes
    }
}
