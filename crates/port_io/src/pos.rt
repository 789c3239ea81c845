//! The line and the column of a place in a text.
ghost use Rattle.std.specs.Prelude.{◌≡◌, ◌≤◌, ◌<◌, length};
ghost use Rattle.port_io.specs.Pos.{pos_of};

/// A place in a text as its reader counts it: lines and columns from 1, columns in bytes.
#[derive(Clone, Copy, Debug, PartialEq, Eq)]
pub struct Pos {
    pub line: u32,
    pub column: u32,
}

/// The line and the column of the byte at `place`, or of the end of the text. A line ends after
/// each line feed. It takes no memory.
pub fn line_of(text: &[u8], place: usize) -> Pos
    requires within { place ≤ length text.now }
    requires countable { place < 4_294_967_295 }
    ensures { result ≡ pos_of text.now place }
{
    let mut line = 1;
    let mut column = 1;
    for byte in &text[..place] {
        if *byte == b'\n' {
            line += 1;
            column = 1;
        } else {
            column += 1;
        }
    }
    Pos { line, column }
}
