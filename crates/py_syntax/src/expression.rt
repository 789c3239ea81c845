//! Expressions.

ghost use Rattle.std.specs.Prelude.{◌≡◌, ℕ, ◌≤◌, MatchOption, Some, None};
ghost use Rattle.py_syntax.specs.ExpressionTables.{
  binary_level,
  level_of,
  left_level,
  prefix_level,
  function_name,
  function_of,
  least_arguments,
  option_name,
  takes_any,
  takes_argument,
  has_enough,
  name_at,
  method_name,
  method_of,
};

use crate::Const;
use port_io::Name;

/// An operator with one operand (the language reference, 6.6 and 6.11).
#[derive(Clone, Copy, Debug, PartialEq, Eq)]
pub enum UnOp {
    /// `not`
    Not,
    /// `-`
    Negative,
    /// `+`
    Positive,
    /// `~`
    Invert,
}

/// An operator with two operands, both of which are evaluated (the language reference, 6.7 to 6.10).
#[derive(Clone, Copy, Debug, PartialEq, Eq)]
pub enum BinOp {
    /// `==`
    Equal,
    /// `!=`
    NotEqual,
    /// `<`
    Less,
    /// `<=`
    LessEqual,
    /// `>`
    Greater,
    /// `>=`
    GreaterEqual,
    /// `is`
    Is,
    /// `is not`
    IsNot,
    /// `|`
    BitOr,
    /// `^`
    BitXor,
    /// `&`
    BitAnd,
    /// `<<`
    ShiftLeft,
    /// `>>`
    ShiftRight,
    /// `+`
    Add,
    /// `-`
    Subtract,
    /// `*`
    Multiply,
    /// `//`
    FloorDivide,
    /// `%`
    Modulo,
}

/// An operator that gives one of its operands, and evaluates the second only where it is needed (the language reference, 6.11).
#[derive(Clone, Copy, Debug, PartialEq, Eq)]
pub enum BoolOp {
    /// `or`
    Or,
    /// `and`
    And,
}

/// An operator that stands between two operands.
#[derive(Clone, Copy, Debug, PartialEq, Eq)]
pub enum Operation {
    Bool(BoolOp),
    Binary(BinOp),
}

/// A function of Python's, or a function or class of cocotb's, that an expression may call by its name.
#[derive(Clone, Copy, Debug, PartialEq, Eq)]
pub enum Function {
    /// `int(value)`
    Int,
    /// `str(value)`
    Str,
    /// `bool(value)`
    Bool,
    /// `len(signal)`
    Len,
    /// `get_sim_time(units)`, of `cocotb.utils`; the units may be left out.
    GetSimTime,
    /// `Timer(time, units)`; the units may be left out. This one and those down to `Combine` are triggers, of `cocotb.triggers`.
    Timer,
    /// `Edge(signal)`
    Edge,
    /// `RisingEdge(signal)`
    RisingEdge,
    /// `FallingEdge(signal)`
    FallingEdge,
    /// `ReadWrite()`
    ReadWrite,
    /// `ReadOnly()`
    ReadOnly,
    /// `NextTimeStep()`
    NextTimeStep,
    /// `ClockCycles(signal, num_cycles, rising)`; the last may be left out.
    ClockCycles,
    /// `Join(task)`
    Join,
    /// `First(trigger, ..)`, with any number.
    First,
    /// `Combine(trigger, ..)`, with any number.
    Combine,
    /// `Clock(signal, period, units)`, of `cocotb.clock`; the units may be left out.
    Clock,
}

/// A method without arguments that an expression may call.
#[derive(Clone, Copy, Debug, PartialEq, Eq)]
pub enum Method {
    /// `wait()` of an event
    Wait,
    /// `acquire()` of a lock
    Acquire,
    /// `join()` of a task
    Join,
    /// `is_set()` of an event
    IsSet,
    /// `done()` of a task
    Done,
    /// `qsize()` of a queue
    QSize,
    /// `empty()` of a queue
    Empty,
    /// `full()` of a queue
    Full,
}

impl UnOp {
    /// How tightly the operator binds: its operand binds as tightly at least.
    pub fn level(self) -> usize
        ensures { result ≡ prefix_level self }
    {
        match self {
            UnOp::Not => 3,
            UnOp::Negative | UnOp::Positive | UnOp::Invert => 11,
        }
    }
}

impl BinOp {
    /// How tightly the operator binds.
    pub fn level(self) -> usize
        ensures { result ≡ binary_level self }
    {
        match self {
            BinOp::Equal
            | BinOp::NotEqual
            | BinOp::Less
            | BinOp::LessEqual
            | BinOp::Greater
            | BinOp::GreaterEqual
            | BinOp::Is
            | BinOp::IsNot => 4,
            BinOp::BitOr => 5,
            BinOp::BitXor => 6,
            BinOp::BitAnd => 7,
            BinOp::ShiftLeft | BinOp::ShiftRight => 8,
            BinOp::Add | BinOp::Subtract => 9,
            BinOp::Multiply | BinOp::FloorDivide | BinOp::Modulo => 10,
        }
    }
}

impl Operation {
    /// How tightly the operator binds, from 1 for the loosest: its right operand binds more tightly.
    pub fn level(self) -> usize
        ensures { result ≡ level_of self }
    {
        match self {
            Operation::Bool(BoolOp::Or) => 1,
            Operation::Bool(BoolOp::And) => 2,
            Operation::Binary(op) => op.level(),
        }
    }

    /// How tightly the left operand binds at least. A comparison is no operand of a comparison.
    pub fn left_level(self) -> usize
        ensures { result ≡ left_level self }
    {
        if self.level() == 4 { 5 } else { self.level() }
    }
}

/// All functions.
const FUNCTIONS: [Function; 17] = [
    Function::Int,
    Function::Str,
    Function::Bool,
    Function::Len,
    Function::GetSimTime,
    Function::Timer,
    Function::Edge,
    Function::RisingEdge,
    Function::FallingEdge,
    Function::ReadWrite,
    Function::ReadOnly,
    Function::NextTimeStep,
    Function::ClockCycles,
    Function::Join,
    Function::First,
    Function::Combine,
    Function::Clock,
];

impl Function {
    /// The function's name.
    pub fn name(self) -> &'static [u8]
        ensures { result.now ≡ function_name self }
    {
        match self {
            Function::Int => b"int",
            Function::Str => b"str",
            Function::Bool => b"bool",
            Function::Len => b"len",
            Function::GetSimTime => b"get_sim_time",
            Function::Timer => b"Timer",
            Function::Edge => b"Edge",
            Function::RisingEdge => b"RisingEdge",
            Function::FallingEdge => b"FallingEdge",
            Function::ReadWrite => b"ReadWrite",
            Function::ReadOnly => b"ReadOnly",
            Function::NextTimeStep => b"NextTimeStep",
            Function::ClockCycles => b"ClockCycles",
            Function::Join => b"Join",
            Function::First => b"First",
            Function::Combine => b"Combine",
            Function::Clock => b"Clock",
        }
    }

    /// The function of this name.
    #[tactic(auto, unfolding(crate::specs::ExpressionTables::function_of))]
    pub fn of(name: &[u8]) -> Option<Function>
        ensures { result ≡ function_of name.now }
    {
        FUNCTIONS
            .iter()
            .copied()
            .find(|function| function.name() == name)
    }

    /// How many arguments a call has at least.
    pub fn least_arguments(self) -> usize
        ensures { result ≡ least_arguments self }
    {
        match self {
            Function::GetSimTime
            | Function::ReadWrite
            | Function::ReadOnly
            | Function::NextTimeStep
            | Function::First
            | Function::Combine => 0,
            Function::ClockCycles | Function::Clock => 2,
            _ => 1,
        }
    }

    /// The name of the argument after these, which may be left out.
    pub fn option_name(self) -> Option<&'static [u8]>
        ensures { MatchOption result (option_name self ≡ None) (λ name. option_name self ≡ Some name.now) }
    {
        match self {
            Function::GetSimTime | Function::Timer | Function::Clock => Some(b"units"),
            Function::ClockCycles => Some(b"rising"),
            _ => None,
        }
    }

    /// Whether a call may have an argument behind so many others.
    pub fn takes_argument(self, others: usize) -> bool
        ensures { result ≡ takes_argument self others }
    {
        let least = self.least_arguments();
        others < least
            || matches!(self, Function::First | Function::Combine)
            || (others == least && self.option_name().is_some())
    }

    /// Whether so many arguments are enough.
    pub fn has_enough(self, arguments: usize) -> bool
        ensures { result ≡ has_enough self arguments }
    {
        self.least_arguments() <= arguments
    }

    /// The name by which the argument behind so many others may be given.
    pub fn name_at(self, others: usize) -> Option<&'static [u8]>
        ensures { MatchOption result (name_at self others ≡ None) (λ name. name_at self others ≡ Some name.now) }
    {
        if others == self.least_arguments() {
            self.option_name()
        } else {
            None
        }
    }
}

/// All methods.
const METHODS: [Method; 8] = [
    Method::Wait,
    Method::Acquire,
    Method::Join,
    Method::IsSet,
    Method::Done,
    Method::QSize,
    Method::Empty,
    Method::Full,
];

impl Method {
    /// The method's name.
    pub fn name(self) -> &'static [u8]
        ensures { result.now ≡ method_name self }
    {
        match self {
            Method::Wait => b"wait",
            Method::Acquire => b"acquire",
            Method::Join => b"join",
            Method::IsSet => b"is_set",
            Method::Done => b"done",
            Method::QSize => b"qsize",
            Method::Empty => b"empty",
            Method::Full => b"full",
        }
    }

    /// The method of this name.
    #[tactic(auto, unfolding(crate::specs::ExpressionTables::method_of))]
    pub fn of(name: &[u8]) -> Option<Method>
        ensures { result ≡ method_of name.now }
    {
        METHODS.iter().copied().find(|method| method.name() == name)
    }
}

/// A part of an f-string (the language reference, 2.4.3).
#[cycle(expression)]
#[derive(Drop)]
pub enum FormatPart {
    /// What stands for itself; `{{` and `}}` are parts of their own.
    Text(Name),
    /// `{expression}`
    Formatted(Box<Expression>),
}

/// An expression (the language reference, 6).
#[cycle(expression)]
#[derive(Drop)]
pub enum Expression {
    /// A number, a text, `True`, `False` or `None`.
    Constant(Const),
    /// `f".."`
    FormatString(Vec<FormatPart>),
    Name(Name),
    /// `(expression)`
    Bracketed(Box<Expression>),
    /// `expression.name`
    Attribute(Box<Expression>, Name),
    /// `expression[expression]`
    Subscript(Box<Expression>, Box<Expression>),
    /// A call of a function that is known by its name. An argument that may be left out stands last, whether it was given by
    /// its place or by its name.
    Call(Function, Vec<Expression>),
    /// `expression.method()`
    MethodCall(Box<Expression>, Method),
    Unary(UnOp, Box<Expression>),
    Binary(BinOp, Box<Expression>, Box<Expression>),
    Bool(BoolOp, Box<Expression>, Box<Expression>),
}
