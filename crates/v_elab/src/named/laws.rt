//! Laws of names, as functions.

ghost use Rattle.std.specs.Prelude.{ℕ, List};
ghost use Rattle.v_syntax.specs.ExpressionTrees.{TargetTree, Tree};
ghost use Rattle.v_syntax.specs.StatementTrees.{StatementTree};
ghost use Rattle.v_flat.specs.Scope.Scope.{Scope};
ghost use Rattle.v_check.specs.Constants.Checked.{AreNamesOf};
ghost use Rattle.v_process.specs.Assign.Targets.{TargetNamesOf};
ghost use Rattle.v_process.specs.Act.Statements.{StatementNamesOf};
ghost use Rattle.v_layout.specs.Named.{AreSignals};

/// Each name in an expression is a signal where each name of its scope is one (IEEE 1364-2005, clause 5).
pub fn expressions_name_signals()
    ensures { (s : Scope) (ws : List ℕ) → AreSignals s ws → (e : Tree) → AreNamesOf s e ws }
{}

/// Each name in a target is a signal where each name of its scope is one (IEEE 1364-2005, clauses 6.1 and 9.2).
pub fn targets_name_signals()
    ensures { (s : Scope) (ws : List ℕ) → AreSignals s ws → (t : TargetTree) → TargetNamesOf s t ws }
{}

/// Each name in a statement is a signal where each name of its scope is one, in the turns of loops too, whose variable is a constant there
/// (IEEE 1364-2005, clause 9).
pub fn statements_name_signals()
    ensures { (s : Scope) (ws : List ℕ) → AreSignals s ws → (a : StatementTree) → StatementNamesOf s a ws }
{}
