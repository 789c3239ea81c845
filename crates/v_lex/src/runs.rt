//! How many bytes of a class stand at the front.

ghost use Rattle.std.specs.Prelude.{◌≡◌, ◌≤◌, length};
ghost use Rattle.v_lex.specs.Bytes.{run};

use crate::bytes::ByteClass;

/// How many bytes of the class stand at the front of the text.
pub fn run(class: ByteClass, text: &[u8]) -> usize
    ensures is { result ≡ run class text.now }
    ensures within { result ≤ length text.now }
{
    for (i, byte) in text.iter().enumerate() {
        if !class.contains(*byte) {
            return i;
        }
    }
    text.len()
}
