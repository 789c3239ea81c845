//! The operators, in groups that share a rule of widths.
ghost use Rattle.std.specs.Prelude.{◌≡◌, length};
ghost use Rattle.four_value.specs.Vector.{and_digit, or_digit};
ghost use Rattle.gpi.specs.Operators.{unary_value, arith_value, compare_value, logic_value, reduce_value, shift_value, choose};

use four_value::{Bits, Digit};

/// Operators on one operand that keep its width (clauses 5.1.5 and 5.1.10).
#[derive(Clone, Copy, Debug, PartialEq, Eq)]
pub enum Unary {
    /// `+`: the operand, all x where a digit is x or z.
    Plus,
    /// `-`: zero less the operand.
    Minus,
    /// `~`
    Invert,
}

/// Operators on two operands of one width that keep it (clauses 5.1.5 and 5.1.10).
#[derive(Clone, Copy, Debug, PartialEq, Eq)]
pub enum Arith {
    And,
    Or,
    Xor,
    Xnor,
    Add,
    Sub,
    Mul,
    Div,
    Rem,
}

/// Comparisons of two operands of one width, with one digit as the result (clauses 5.1.7 and 5.1.8).
#[derive(Clone, Copy, Debug, PartialEq, Eq)]
pub enum Compare {
    /// `==`
    Equal,
    /// `!=`
    Differ,
    /// `===`
    CaseEqual,
    /// `!==`
    CaseDiffer,
    /// `<`
    Less,
    /// `<=`
    AtMost,
    /// `>`
    Above,
    /// `>=`
    AtLeast,
}

/// Connectives of two truth values, each of any width, with one digit as the result (clause 5.1.9).
#[derive(Clone, Copy, Debug, PartialEq, Eq)]
pub enum Logic {
    /// `&&`
    Both,
    /// `||`
    Either,
}

/// Operators on one operand of any width with one digit as the result (clauses 5.1.9 and 5.1.11).
#[derive(Clone, Copy, Debug, PartialEq, Eq)]
pub enum Reduce {
    /// `&`
    All,
    /// `|`
    Any,
    /// `^`
    Parity,
    /// `~&`
    NotAll,
    /// `~|`
    NotAny,
    /// `~^`
    NotParity,
    /// `!`
    Not,
}

/// Shifts by a count of any width, which keep the width of what is shifted (clause 5.1.12).
#[derive(Clone, Copy, Debug, PartialEq, Eq)]
pub enum Shift {
    /// `<<` and `<<<`
    Up,
    /// `>>` and `>>>`: no operand is signed.
    Down,
}

impl Unary {
    /// The value on an operand.
    #[tactic(auto, using(crate::proofs::Widths::operators))]
    pub fn apply(self, a: Bits) -> Bits
        ensures is { result ≡ unary_value self a }
        ensures wide { length result ≡ length a }
    {
        match self {
            Unary::Plus => Bits::all(a.width(), Digit::Zero).add(a),
            Unary::Minus => Bits::all(a.width(), Digit::Zero).sub(a),
            Unary::Invert => a.not(),
        }
    }
}

impl Arith {
    /// The value on two operands of one width.
    #[tactic(auto, using(four_value::proofs::Lengths::lengths))]
    pub fn apply(self, a: Bits, b: Bits) -> Bits
        requires { length a ≡ length b }
        ensures is { result ≡ arith_value self a b }
        ensures wide { length result ≡ length a }
    {
        match self {
            Arith::And => a.and(b),
            Arith::Or => a.or(b),
            Arith::Xor => a.xor(b),
            Arith::Xnor => a.xor(b).not(),
            Arith::Add => a.add(b),
            Arith::Sub => a.sub(b),
            Arith::Mul => a.mul(b),
            Arith::Div => a.div(b),
            Arith::Rem => a.rem(b),
        }
    }
}

impl Compare {
    /// The digit that the comparison of two operands of one width gives.
    pub fn apply(self, a: Bits, b: Bits) -> Digit
        requires { length a ≡ length b }
        ensures { result ≡ compare_value self a b }
    {
        match self {
            Compare::Equal => a.eq(b),
            Compare::Differ => a.eq(b).negated(),
            Compare::CaseEqual => a.case_eq(b),
            Compare::CaseDiffer => a.case_eq(b).negated(),
            Compare::Less => a.lt(b),
            Compare::AtMost => b.lt(a).negated(),
            Compare::Above => b.lt(a),
            Compare::AtLeast => a.lt(b).negated(),
        }
    }
}

impl Logic {
    /// The digit that two operands give by their truth.
    pub fn apply(self, a: Bits, b: Bits) -> Digit
        ensures { result ≡ logic_value self a b }
    {
        match self {
            Logic::Both => and_digits(a.reduce_or(), b.reduce_or()),
            Logic::Either => or_digits(a.reduce_or(), b.reduce_or()),
        }
    }
}

impl Reduce {
    /// The digit that an operand gives.
    pub fn apply(self, a: Bits) -> Digit
        ensures { result ≡ reduce_value self a }
    {
        match self {
            Reduce::All => a.reduce_and(),
            Reduce::Any => a.reduce_or(),
            Reduce::Parity => a.reduce_xor(),
            Reduce::NotAll => a.reduce_and().negated(),
            Reduce::NotAny | Reduce::Not => a.reduce_or().negated(),
            Reduce::NotParity => a.reduce_xor().negated(),
        }
    }
}

impl Shift {
    /// The value of a shift by a count.
    #[tactic(auto, using(crate::proofs::Widths::operators))]
    pub fn apply(self, a: Bits, count: Bits) -> Bits
        ensures is { result ≡ shift_value self a count }
        ensures wide { length result ≡ length a }
    {
        match self {
            Shift::Up => a.shl(count),
            Shift::Down => a.shr(count),
        }
    }
}

/// The table of `&` (clause 5.1.10).
fn and_digits(a: Digit, b: Digit) -> Digit
    ensures { result ≡ and_digit a b }
{
    match (a, b) {
        (Digit::Zero, _) | (_, Digit::Zero) => Digit::Zero,
        (Digit::One, Digit::One) => Digit::One,
        _ => Digit::X,
    }
}

/// The table of `|` (clause 5.1.10).
fn or_digits(a: Digit, b: Digit) -> Digit
    ensures { result ≡ or_digit a b }
{
    match (a, b) {
        (Digit::One, _) | (_, Digit::One) => Digit::One,
        (Digit::Zero, Digit::Zero) => Digit::Zero,
        _ => Digit::X,
    }
}

/// The value of `?:` by the truth of its condition (clause 5.1.13): where that is unknown, the digits in which both agree, else x.
#[tactic(auto, using(four_value::proofs::Lengths::lengths))]
pub fn chosen(condition: Digit, first: Bits, second: Bits) -> Bits
    requires { length first ≡ length second }
    ensures is { result ≡ choose condition first second }
    ensures wide { length result ≡ length first }
{
    match condition {
        Digit::One => first,
        Digit::Zero => second,
        Digit::X | Digit::Z => first.merge(second),
    }
}
