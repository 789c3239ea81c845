//! What the names say that are a function's own.

ghost use Rattle.std.specs.Prelude.{◌≡◌, Bool, List};
ghost use Rattle.py_syntax.specs.BlockTrees.{Block};
ghost use Rattle.test_meaning.specs.Rules.File.{File};
ghost use Rattle.test_meaning.specs.Rules.Names.{Name, is_among};
ghost use Rattle.test_meaning.specs.Rules.Rules.{first_broken};
ghost use Rattle.test_meaning.specs.Rules.Uses.{block_lines, with_names};

/// Of the names that are a function's own, it matters alone which they are: the first broken line of its block is the same for two lists
/// that have the same names.
pub fn names_alone_matter()
    ensures { (f above : File) (ls ms : List Name) → ((n : Name) → is_among n ls ≡ is_among n ms) → (looped : Bool) (b : Block)
        → first_broken f (block_lines (with_names above ls) looped b) ≡ first_broken f (block_lines (with_names above ms) looped b) }
{}
