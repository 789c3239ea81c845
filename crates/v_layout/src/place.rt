//! Where declarations stand.

ghost use Rattle.std.specs.Prelude.{◌≡◌, ◌&&◌, IfOk, not, option_map};
ghost use Rattle.v_syntax.specs.SourceTrees.{view_range};
ghost use Rattle.v_flat.specs.Declarations.{bounds_in, find_direction, is_free, is_input_reg, is_port, known_names, vector_bounds};
ghost use Rattle.v_header.specs.Parameters.{range_in};
ghost use Rattle.v_layout.specs.Kept.{sort_in};
ghost use Rattle.v_header.specs.Parameter.Constants.{AreConstants};
ghost use Rattle.v_layout.specs.Place.{place_in};

use crate::details::Declared;
use port_io::NoMemory;
use std::alloc::Global;
use v_check::constants::is_constant;
use v_flat::scope::{Bounds, Found};
use v_header::Ports;
use v_header::parameter::Constants;
use v_syntax::Range;

/// What is known in an instance before its declarations.
#[derive(Clone, Copy)]
pub struct Place<'a> {
    /// The parameters with their values, and what names mean where they alone are known.
    pub constants: &'a Constants,
    /// The ports of the module.
    pub ports: &'a Ports<'a>,
    /// The number of the instance's first signal in the design.
    pub first: u32,
}

impl Place<'_> {
    /// Whether no parameter has this name.
    pub(crate) fn is_free(&self, name: &[u8]) -> bool
        requires { AreConstants self.now.constants.now }
        ensures { result ≡ is_free name.now (place_in self.now).constants }
    {
        !is_constant(&self.constants.scope, name)
    }

    /// Whether a name may be declared so as far as ports go: one with a direction is that of a port, and an input is no register.
    pub(crate) fn may_be(&self, name: &[u8], declared: Declared) -> bool
        ensures { result
            ≡ (is_port declared.direction name.now self.now.ports.now && not (is_input_reg declared.direction (option_map sort_in declared.sort))) }
    {
        (declared.direction.is_none() || self.ports.contains(name)) && !declared.is_input_reg()
    }

    /// Whether a name is that of a port that has a direction.
    pub(crate) fn has_direction(&self, name: &[u8]) -> bool
        ensures { result ≡ find_direction name.now self.now.ports.now }
    {
        self.ports.has_direction(name)
    }

    /// The bounds of a range. Only want of memory is an error.
    pub(crate) fn bounds(&self, alloc: Global, range: &Range) -> Result<Found<Bounds>, NoMemory>
        requires { AreConstants self.now.constants.now }
        ensures { IfOk result (λ found. found ≡ bounds_in (view_range range.now) (known_names (place_in self.now))) }
    {
        v_header::range::bounds(alloc, &self.constants.scope, range)
    }

    /// The bounds of a vector. Only want of memory is an error.
    pub(crate) fn vector_bounds(
        &self,
        alloc: Global,
        range: Option<&Range>,
    ) -> Result<Found<Bounds>, NoMemory>
        requires { AreConstants self.now.constants.now }
        ensures { IfOk result (λ found. found ≡ vector_bounds (range_in range.entry) (known_names (place_in self.now))) }
    {
        v_header::range::vector_bounds(alloc, &self.constants.scope, range)
    }
}
