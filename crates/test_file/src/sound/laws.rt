//! The law.

ghost use Rattle.test_file.specs.Sound.Law.{Accepted_is_sound};

/// What a tests file that breaks no rule stands for is sound, if each start of a clock in it has such arguments as a text may give it.
pub fn accepted_is_sound()
    ensures { Accepted_is_sound }
{}
