//! The tokens and the trees of Verilog texts, and the whole grammar.
//!
//! A token is a `Token`; `Keyword`, `ReservedWord`, `SystemTask` and `Mark` tell their bytes by `spelling`. A text's tree is a
//! `Source`, made of `Module`s, and these of `Item`s, `Statement`s and `Expression`s. Begin with `Source`. Which tokens a
//! tree spells, its height, and which token a text is refused at, stand in `specs/`, as the grammar of IEEE 1364-2005,
//! annex A. What reads texts stands in the crates above: `v_lex` reads bytes, `v_parse` tokens.
#![tactic(auto)]

mod expression;
mod item;
mod mark;
mod source;
mod statement;
mod token;
mod token_number;
mod word;

pub use expression::{BinaryOperator, Expression, Operand, Select, Selects, Target, UnaryOperator};
pub use item::{
    Connections, ContinuousAssignment, Direction, Edge, Event, EventControl, Item, ItemForm,
    ItemKind, NamedConnection, NetDeclarator, ParameterAssignment, ParameterKind, PortHead,
    PortKind, Range, RegisterDeclarator, RegisterTail,
};
pub use mark::{MARKS, Mark, longest_mark};
pub use source::{HeaderParameter, HeaderPort, HeaderPorts, Module, ParameterHead, Source};
pub use statement::{
    AssignmentKind, CaseItem, CaseKind, ForHeader, Identifier, Statement, StatementForm,
    StatementPlace, TaskArgument, VariableAssignment,
};
pub use token::Token;
pub use token_number::TokenNumber;
pub use word::{KEYWORDS, Keyword, RESERVED_WORDS, ReservedWord, SYSTEM_TASKS, SystemTask};
