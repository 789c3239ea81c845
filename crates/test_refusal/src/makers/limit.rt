//! How many tests a file may have.

ghost use Rattle.std.specs.Prelude.{◌≡◌};
ghost use Rattle.test_refusal.specs.Makers.SoFar.{cut};

/// How many tests a file may have.
pub const TEST_LIMIT: usize = 65_536;

/// A number of tests, where one above the limit stands for all that are more.
pub fn cut(count: usize) -> usize
    ensures { result ≡ cut count }
{
    count.min(TEST_LIMIT + 1)
}
