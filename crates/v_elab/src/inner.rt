//! An item that is an instance.

use v_syntax::{Connections, Identifier, TokenNumber};

/// `module [# ( parameters )] name ( [ports] ) ;` (IEEE 1364-2005, clause 12.1.2)
#[derive(Clone, Copy)]
pub struct Inner<'a> {
    /// The item's first token.
    pub at: TokenNumber,
    /// The name of the module.
    pub module: &'a Identifier,
    /// The values of parameters, if any are given.
    pub parameters: Option<&'a Connections>,
    /// The name of the instance.
    pub name: &'a Identifier,
    /// The connections of ports, if there are any.
    pub ports: Option<&'a Connections>,
}
