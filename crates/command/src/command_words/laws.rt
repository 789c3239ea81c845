//! Laws of the definition of a reading.
ghost use Rattle.command.specs.CommandWords.Forms.{ReadOnce};

/// Law: each list of words has at most one reading.
pub fn one_reading()
    ensures { ReadOnce }
{}
