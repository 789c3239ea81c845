//! Laws of all factories, and worked ones.

ghost use Rattle.std.specs.Prelude.{◌≡◌, ℕ, ◌<◌, List, length, slice_get, Some};
ghost use Rattle.test_meaning.specs.Factory.Product.{Choice, Chosen, product, case_count, case_at};
ghost use Rattle.test_meaning.specs.Factory.Rows.{Worked_rows};

/// A factory has as many cases as the product of its options' numbers of values says.
pub fn count_is_length()
    ensures { (options : List Choice) → length (product options) ≡ case_count options }
{}

/// The case of a number is made of the number's digits, of which the last option's is the last.
pub fn case_is_element()
    ensures { (options : List Choice) (i : ℕ) → i < case_count options → slice_get (product options) i ≡ Some (case_at options i) }
{}

/// A factory with x of [0, 1] and y of [0, 1, 2] has six cases, of which number 3 has x = 1 and y = 0. Without an option there is one
/// case, and none where a list is empty.
pub fn worked_rows()
    ensures { Worked_rows }
{}
