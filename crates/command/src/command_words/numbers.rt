//! Numbers among the words.
ghost use Rattle.std.specs.Prelude.{ℕ, MatchOption};
ghost use Rattle.command.specs.CommandWords.Arguments.{listed};
ghost use Rattle.command.specs.CommandWords.Forms.{IsNumber, SaysNumber};

/// The number of 1 to 20 digits that a text says, if it is at least `least` and at most `most`.
pub fn number(text: &str, least: u64, most: u64) -> Option<u64>
    ensures { MatchOption result ((n : ℕ) → SaysNumber least most text.now n → ⊥) (λ n. SaysNumber least most text.now n) }
{
    if text.len() > 20 || text.as_bytes().first() == Some(&b'+') {
        return None;
    }
    match text.parse::<u64>() {
        Ok(number) if least <= number && number <= most => Some(number),
        _ => None,
    }
}

/// The number of an option: `without` where it has no value.
pub fn number_or(text: Option<&str>, without: u64, least: u64, most: u64) -> Option<u64>
    ensures { MatchOption result ((n : ℕ) → IsNumber without least most (listed text.entry) n → ⊥)
        (λ n. IsNumber without least most (listed text.entry) n) }
{
    match text {
        Some(text) => number(text, least, most),
        None => Some(without),
    }
}
