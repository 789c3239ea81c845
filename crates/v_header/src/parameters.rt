//! The parameters of a module.
//!
//! After want of memory a list that was being filled is dropped, so no clause speaks of what it then holds.

ghost use Rattle.std.specs.Prelude.{◌≡◌, ◌++◌, None, map, option_map, IfOk, OnOk};
ghost use Rattle.v_syntax.specs.SourceTrees.{view_header_parameter, view_item, view_module, view_parameter, view_parameter_head, view_range};
ghost use Rattle.v_flat.specs.Headers.{header_parameters, in_line, item_parameters, open_parameters, parameters_of, range_or};
ghost use Rattle.v_header.specs.Names.{texts};
ghost use Rattle.v_header.specs.Parameters.{parameters_in, parameters_in_item, range_in};

use port_io::NoMemory;
use std::alloc::Global;
use v_syntax::{
    Expression, HeaderParameter, Identifier, Item, ItemKind, Module, ParameterAssignment,
    ParameterHead, ParameterKind, Range,
};

/// A parameter as it is declared (IEEE 1364-2005, clauses 4.10 and 12.2).
#[derive(Clone, Copy)]
pub struct Parameter<'a> {
    /// Whether an override may give it: a local parameter never.
    pub kind: ParameterKind,
    /// Its range; none where it has that of its value.
    pub range: Option<&'a Range>,
    /// Its name.
    pub name: &'a Identifier,
    /// The value that it has without an override.
    pub value: &'a Expression,
}

/// The range of a parameter of a header: its own, or without the word `parameter` in front that of the one before.
fn range_behind<'a>(head: &'a Option<ParameterHead>, before: Option<&'a Range>) -> Option<&'a Range>
    ensures { range_in result ≡ range_or (option_map view_parameter_head head.now) (range_in before.entry) }
{
    match head {
        Some(head) => head.range.as_ref(),
        None => before,
    }
}

/// Adds the parameters of a header. Only want of memory is an error.
fn add_header<'a>(
    found: &mut Vec<Parameter<'a>>,
    parameters: &'a [HeaderParameter],
) -> Result<(), NoMemory>
    ensures { OnOk result
        (parameters_in found.new.items ≡ parameters_in found.old.items ++ header_parameters None (map view_header_parameter parameters.now)) }
{
    let mut range = None;
    for parameter in parameters {
        range = range_behind(&parameter.head, range);
        found.push(Parameter {
            kind: ParameterKind::Parameter,
            range,
            name: &parameter.name,
            value: &parameter.value,
        })?;
    }
    Ok(())
}

/// Adds the parameters that are declared in one list. Only want of memory is an error.
fn add_line<'a>(
    found: &mut Vec<Parameter<'a>>,
    kind: ParameterKind,
    range: Option<&'a Range>,
    assignments: &'a [ParameterAssignment],
) -> Result<(), NoMemory>
    ensures { OnOk result (parameters_in found.new.items
        ≡ parameters_in found.old.items ++ map (in_line kind (range_in range.entry)) (map view_parameter assignments.now)) }
{
    for assignment in assignments {
        found.push(Parameter {
            kind,
            range,
            name: &assignment.name,
            value: &assignment.value,
        })?;
    }
    Ok(())
}

/// Adds the parameters that an item declares. Only want of memory is an error.
fn add_item<'a>(found: &mut Vec<Parameter<'a>>, item: &'a Item) -> Result<(), NoMemory>
    ensures { OnOk result (parameters_in found.new.items ≡ parameters_in found.old.items ++ parameters_in_item (view_item item.now)) }
{
    match &item.kind {
        ItemKind::Parameters {
            kind,
            range,
            assignments,
        } => add_line(found, *kind, range.as_ref(), assignments),
        _ => Ok(()),
    }
}

/// Adds the parameters that items declare. Only want of memory is an error.
fn add_items<'a>(found: &mut Vec<Parameter<'a>>, items: &'a [Item]) -> Result<(), NoMemory>
    ensures { OnOk result (parameters_in found.new.items ≡ parameters_in found.old.items ++ item_parameters (map view_item items.now)) }
{
    for item in items {
        add_item(found, item)?;
    }
    Ok(())
}

/// The parameters of a module in their order: those of its header, then those of its items. Only want of memory is an error.
pub fn parameters_of(alloc: Global, module: &Module) -> Result<Vec<Parameter<'_>>, NoMemory>
    ensures { IfOk result (λ parameters. parameters_in parameters.items ≡ parameters_of (view_module «module».now)) }
{
    let mut found = Vec::new(alloc);
    add_header(&mut found, &module.parameters)?;
    add_items(&mut found, &module.items)?;
    Ok(found)
}

/// The names of the parameters that an override may give (IEEE 1364-2005, clause 12.2.2), in their order. Only want of memory is an
/// error.
pub fn open_parameters<'a>(
    alloc: Global,
    parameters: &[Parameter<'a>],
) -> Result<Vec<&'a [u8]>, NoMemory>
    ensures { IfOk result (λ names. texts names.items ≡ open_parameters (parameters_in parameters.now)) }
{
    let mut names = Vec::new(alloc);
    for parameter in parameters {
        if parameter.kind == ParameterKind::Parameter {
            names.push(parameter.name.name.bytes())?;
        }
    }
    Ok(names)
}
