//! Laws of the definitions.

ghost use Rattle.std.specs.Prelude.{◌≡◌, List};
ghost use Rattle.py_syntax.specs.ModuleTrees.{ModuleLine};
ghost use Rattle.py_syntax.specs.ModuleForms.{SpellsModuleLine};
ghost use Rattle.py_syntax.specs.declared.token.Token.{Token};

/// Tokens are at most one line of a module.
pub fn one_module_line()
    ensures { (tokens : List Token) (line other : ModuleLine) → SpellsModuleLine line tokens → SpellsModuleLine other tokens → line ≡ other }
{}
