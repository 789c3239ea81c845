//! What the places of a table say of the definitions of `test_meaning::rules`.

ghost use Rattle.std.specs.Prelude.{◌≡◌, ℕ, nat_lt, Bool, false, List, is_some, take, slice_get, option_and_then};
ghost use Rattle.std.specs.List.{find, list_any, position_from};
ghost use Rattle.std.specs.Option.{option_map, option_map_or};
ghost use Rattle.py_syntax.specs.BlockTrees.{ModuleItem};
ghost use Rattle.test_meaning.specs.Rules.File.{factory, file_of, fixed_of, function, parameters_of};
ghost use Rattle.test_meaning.specs.Rules.Names.{Name, is_among};
ghost use Rattle.test_names.specs.Definitions.Definitions.{defines, is_defined};
ghost use Rattle.test_names.specs.declared.definitions.item.Kind.TheVariants as kind;

/// A module has a constant of a name exactly where an item defines it as one.
pub fn constants_are_defined()
    ensures { (xs : List ModuleItem) (n : Name) → is_some (fixed_of (file_of xs).constants n) ≡ list_any (is_defined kind.Constant n) xs }
{}

/// A module has a function of a name exactly where an item defines it as one.
pub fn functions_are_defined()
    ensures { (xs : List ModuleItem) (n : Name) → is_some (function (file_of xs) n) ≡ list_any (is_defined kind.Function n) xs }
{}

/// A module has a factory of a name exactly where an item defines it as one.
pub fn factories_are_defined()
    ensures { (xs : List ModuleItem) (n : Name) → is_some (factory (file_of xs) n) ≡ list_any (is_defined kind.Factory n) xs }
{}

/// A name is among those that a module defines exactly where an item defines it.
pub fn names_are_defined()
    ensures { (xs : List ModuleItem) (n : Name) → is_among n (file_of xs).names ≡ list_any (defines n) xs }
{}

/// The function of a name has the parameters of the first item that defines the name as one.
pub fn functions_have_parameters()
    ensures { (xs : List ModuleItem) (n : Name)
        → option_map (λ d. d.parameters) (function (file_of xs) n) ≡ option_map parameters_of (find (is_defined kind.Function n) xs) }
{}

/// An item passes a test exactly where there is a place of the first that does.
pub fn any_by_place()
    ensures { (p : ModuleItem → Bool) (xs : List ModuleItem) → list_any p xs ≡ is_some (position_from p 0 xs) }
{}

/// One of the first `k` items passes a test exactly where the place of the first of all that does is below `k`.
pub fn above_by_place()
    ensures { (p : ModuleItem → Bool) (xs : List ModuleItem) (k : ℕ)
        → list_any p (take k xs) ≡ option_map_or (λ i. nat_lt i k) (position_from p 0 xs) false }
{}

/// The first item that passes a test stands at the first place at which one passes.
pub fn found_at_place()
    ensures { (p : ModuleItem → Bool) (xs : List ModuleItem) → find p xs ≡ option_and_then (slice_get xs) (position_from p 0 xs) }
{}
