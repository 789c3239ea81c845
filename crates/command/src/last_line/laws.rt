//! What a sink keeps after several puts.
ghost use Rattle.command.specs.LastLine.Last.{KeepsLast, KeepsLastOf, NoneFails};

/// Where all pieces were taken, the last of them is kept, and no put fails but for want of memory.
pub fn last_is_kept()
    ensures all { KeepsLast }
    ensures some { KeepsLastOf }
    ensures none_fails { NoneFails }
{}
