//! The module of an instance.

ghost use Rattle.std.specs.Prelude.{◌≡◌, ◌&&◌, bytes_eq, nat_lt};
ghost use Rattle.std.specs.List.{list_any};
ghost use Rattle.v_header.specs.Names.{texts};
ghost use Rattle.v_flat.specs.Scope.Limits.{most_parts};
ghost use Rattle.v_flat.specs.Design.{timing_of};
ghost use Rattle.v_header.specs.Top.Found.{modules_of};
ghost use Rattle.v_elab.specs.InnerSteps.{IsThere};

use v_flat::Timing;
use v_flat::scope::{Broken, ElabRule, Found};
use v_header::top::Modules;
use v_syntax::{Identifier, Module};

/// The most instances that a design may have.
const MOST_INSTANCES: usize = 65_536;

/// Whether a name is one of these.
fn is_among(names: &[&[u8]], name: &[u8]) -> bool
    ensures { result ≡ list_any (bytes_eq name.now) (texts names.now) }
{
    for other in names {
        if name == *other {
            return true;
        }
    }
    false
}

/// Whether so many levels leave room for one more, and so many instances too.
fn has_room(levels: usize, instances: usize) -> bool
    ensures { result ≡ (nat_lt 0 levels && nat_lt instances most_parts) }
{
    0 < levels && instances < MOST_INSTANCES
}

/// What the delays of a module go by (IEEE 1364-2005, clause 19.8).
pub(crate) fn timing_in(modules: &Modules<'_>, module: &Module) -> Timing
    ensures { result ≡ timing_of (modules_of modules.now) «module».now.name.name }
{
    modules.timing(module.name.name.bytes())
}

/// The module of an instance (IEEE 1364-2005, clause 12.1.2), where `above` are the modules from the top down to the instance around it, so many
/// levels may stand below that one, and so many instances are built. UnknownModule, RecursiveInstance and TooMany are broken at the module's
/// name, where there is no such module, where it is one of those above, and where there is no room for a level or an instance more.
pub(crate) fn module_there<'a>(
    modules: &Modules<'a>,
    above: &[&[u8]],
    room: usize,
    instances: usize,
    name: &Identifier,
) -> Result<&'a Module, Broken>
    ensures { IsThere name.now room (modules_of modules.now) (texts above.now) instances result }
{
    match modules.find(name.name.bytes()) {
        Some(module) => {
            let is_new = !is_among(above, name.name.bytes());
            let is_room = has_room(room, instances);
            Found::Sound(module)
                .needs(is_room, ElabRule::TooMany, name.at)
                .needs(is_new, ElabRule::RecursiveInstance, name.at)
                .ended()
        }
        None => Err(Broken {
            rule: ElabRule::UnknownModule,
            place: name.at,
        }),
    }
}
