//! What follows of the parts of a whole design.

ghost use Rattle.v_layout.specs.Build.Laws.{What_is_built_is_sound};

/// A flat design of all parts of a text's design is sound, and stands for that design.
pub fn what_is_built_is_sound()
    ensures { What_is_built_is_sound }
{}
