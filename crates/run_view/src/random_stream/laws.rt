//! Worked draws.
ghost use Rattle.run_view.specs.RandomStream.Rows.{Worked_rows};

/// Twenty draws of each of three seeds. `tools/random_rows.py` reckoned them by the same arithmetic.
pub fn worked_rows()
    ensures { Worked_rows }
{}
