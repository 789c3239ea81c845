//! Laws of the definitions.

ghost use Rattle.std.specs.Prelude.{◌≡◌, ℕ, List};
ghost use Rattle.py_syntax.specs.Line.{Line};
ghost use Rattle.py_syntax.specs.Places.{first_place};
ghost use Rattle.py_syntax.specs.Logical.{lines_of};
ghost use Rattle.py_syntax.specs.Spelled.{IsSpelled};
ghost use Rattle.py_syntax.specs.declared.piece.Piece.{Piece};
ghost use Rattle.py_syntax.specs.BlockTrees.{ModuleItem};
ghost use Rattle.py_syntax.specs.Modules.{AreItems, module_lines, SpellsModule};
ghost use Rattle.py_syntax.specs.Outline.{Placed, SpellsOutline, at_start};

/// The lines of a text stand in their places in one way alone, however deep and high.
pub fn one_outline()
    ensures { (text : List Line) (lines others : List Placed) → SpellsOutline at_start lines text
        → SpellsOutline at_start others text → lines ≡ others }
{}

/// Lines are those of at most one module.
pub fn one_tree()
    ensures { (m n : List ModuleItem) → AreItems m → AreItems n → module_lines m ≡ module_lines n → m ≡ n }
{}

/// A text has at most one module, however deep and high.
pub fn one_module()
    ensures { (m n : List ModuleItem) (text : List Line) → SpellsModule m text → SpellsModule n text → m ≡ n }
{}

/// Bytes have at most one module, however deep and high.
pub fn one_module_of_bytes()
    ensures { (bytes : List ℕ) (pieces others : List Piece) (m n : List ModuleItem) → IsSpelled first_place pieces bytes
        → IsSpelled first_place others bytes → SpellsModule m (lines_of pieces) → SpellsModule n (lines_of others) → m ≡ n }
{}
