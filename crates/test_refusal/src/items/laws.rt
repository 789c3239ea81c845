//! What follows of what an item breaks.

ghost use Rattle.std.specs.Prelude.{◌≡◌, ◌+◌, ◌||◌, ◌&&◌, ◌++◌, ◌∷◌, [], ℕ, List, not, if◌then◌else◌};
ghost use Rattle.std.specs.List.{list_any};
ghost use Rattle.std.specs.Option.{option_or};
ghost use Rattle.py_syntax.specs.BlockTrees.{Block, FunctionAt, ModuleItem};
ghost use Rattle.py_syntax.specs.declared.module.Parameter.{Parameter};
ghost use Rattle.test_meaning.specs.Rules.File.{
  File,
  Place,
  file_of,
  is_decorator,
  is_function,
  is_made_name,
  is_test,
  line_of,
  next_function,
  parameters_of,
  places,
};
ghost use Rattle.test_meaning.specs.Rules.Names.{Name};
ghost use Rattle.test_meaning.specs.Rules.Rules.{
  defines_twice,
  first_broken,
  has_misfit,
  has_right_options,
  is_overfull,
  is_stray,
  is_unknown_import,
  lacks_parameters,
  one_test,
  refused_at,
  tests_among,
  tests_at,
};
ghost use Rattle.test_meaning.specs.Rules.Uses.{inner_lines, own_uses, with_names};
ghost use Rattle.test_names.specs.Uses.Answer.{answer};
ghost use Rattle.test_refusal.specs.Items.Functions.{function_name, is_decorated_behind};
ghost use Rattle.test_refusal.specs.Items.OwnLine.{first_rule, lines_below, own_rule};

/// The first rule that an item's own line breaks, from which of them it breaks.
pub fn own_rule_by_parts()
    ensures { (f : File) (p : Place) → own_rule f p
        ≡ first_rule (is_unknown_import p.item) (answer f (with_names (file_of p.above) []) (own_uses p.item))
        (is_stray p || has_misfit f p) (defines_twice p) (not (has_right_options f (file_of p.above) p.item)) (is_overfull f p) }
{}

/// A function's own line has a misfit exactly where the function lacks parameters, from whether a decorator stands directly above and whether a
/// factory names it.
pub fn misfit_by_parts()
    ensures { (xs ys : List ModuleItem) (x : ModuleItem) → has_misfit (file_of (xs ++ x ∷ ys)) (record { item = x; above = xs; below = ys })
        ≡ (is_function x && lacks_parameters (is_decorated_behind xs) (is_made_name (file_of (xs ++ x ∷ ys)) (function_name x)) (parameters_of x)) }
{}

/// A function is one test where a decorator stands directly above and no factory names it, and else none.
pub fn test_by_parts()
    ensures { (xs ys : List ModuleItem) (l : ℕ) (f : Name) (ps : List Parameter) (b : Block)
        → one_test (file_of (xs ++ FunctionAt l f ps b ∷ ys)) (next_function (file_of (xs ++ FunctionAt l f ps b ∷ ys)) (file_of xs))
        ≡ (if is_decorated_behind xs && not (is_made_name (file_of (xs ++ FunctionAt l f ps b ∷ ys)) f) then 1 else 0) }
{}

/// A decorator stands directly behind some items exactly where the last of them is one.
pub fn decorated_by_last()
    ensures { (xs : List ModuleItem) (x : ModuleItem) → is_decorated_behind (xs ++ x ∷ []) ≡ is_decorator x }
{}

/// The first broken line of some items: the first item's own, or else the first of its block, or else the first of the items behind it.
pub fn first_by_items()
    ensures { (f : File) (xs ys : List ModuleItem) (x : ModuleItem) → first_broken f (lines_below xs (x ∷ ys))
        ≡ option_or (refused_at (line_of x) (own_rule f (record { item = x; above = xs; below = ys })))
        (option_or (first_broken f (inner_lines (file_of xs) x)) (first_broken f (lines_below (xs ++ x ∷ []) ys))) }
{}

/// The tests of a file at some items and one more are those at these items and those at that one: with these it is overfull or not.
pub fn tests_with_item()
    ensures { (f : File) (xs : List ModuleItem) (x : ModuleItem)
        → tests_among f (places (xs ++ x ∷ [])) ≡ tests_among f (places xs) + tests_at f (file_of xs) x }
{}

/// One of the functions of some items and of one more is a test exactly where one of these items' is, or that item is a function that is: a decorator
/// stands directly above, and no factory names it.
pub fn test_with_item()
    ensures { (f : File) (xs : List ModuleItem) (x : ModuleItem) → list_any (is_test f) (file_of (xs ++ x ∷ [])).functions
        ≡ (list_any (is_test f) (file_of xs).functions || (is_function x && (is_decorated_behind xs && not (is_made_name f (function_name x))))) }
{}
