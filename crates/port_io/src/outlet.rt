//! Writers, by what each write may do.
ghost use Rattle.std.specs.Prelude.{◌≡◌, ℕ, ◌≤◌, List, Option, [], length, take, IfSome, IsNone};
ghost use Rattle.std.specs.Io.KnownBytes.{Appends, Keeps};
ghost use Rattle.port_io.specs.WrittenLaws.{appends_kept};

use std::io::Write;

/// A writer, by what each of its writes may do.
pub trait Outlet {
    /// The bytes written so far, where the writer tells them.
    ghost told: { Self → Option (List ℕ) };

    /// A write of these bytes may take so many of them, from their front, and turn the first writer
    /// into the second.
    ghost takes: { Self → List ℕ → ℕ → Self → Type 0 };

    /// A write of these bytes may fail, and turn the first writer into the second.
    ghost fails: { Self → List ℕ → Self → Type 0 };

    /// Writes a front of the bytes once, and says how many were taken. None where the write failed,
    /// also where it was interrupted.
    fn write_once(&mut self, bytes: &[u8]) -> Option<usize>
        ensures bound { IfSome result (λ count. count ≤ length bytes.now) }
        ensures taken { IfSome result (λ count. takes self.old bytes.now count self.new) }
        ensures failed { IsNone result → fails self.old bytes.now self.new };

    /// What a write takes is appended.
    ghost takes_told: { (before : Self) (bytes : List ℕ) (count : ℕ) (after : Self)
        → takes before bytes count after → Appends (told before) (told after) (take count bytes) };

    /// Where a write fails, nothing is appended.
    ghost fails_told: { (before : Self) (bytes : List ℕ) (after : Self)
        → fails before bytes after → Appends (told before) (told after) [] };
}

impl<W: Write> Outlet for W {
    ghost told = { W.contents };

    ghost takes = { λ before bytes count after. Appends (W.contents before) (W.contents after) (take count bytes) };

    ghost fails = { λ before _ after. Keeps (W.contents before) (W.contents after) };

    ghost takes_told = { λ before bytes count after taken. taken };

    ghost fails_told = { λ before bytes after failed. appends_kept (W.contents before) (W.contents after) failed };

    fn write_once(&mut self, bytes: &[u8]) -> Option<usize> {
        self.write(bytes).ok()
    }
}
