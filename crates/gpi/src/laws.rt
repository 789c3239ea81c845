//! Laws of forced signals, for all designs and all calls of a simulator.

ghost use Rattle.gpi.specs.Forced.{Forced_signals_stay, Released_nets_show};

/// From a force on, through all calls up to the next one that forces or releases the signal, it shows the digits that it was forced to
/// (IEEE 1364-2005, clause 9.3.2).
pub fn forced_signals_stay()
    ensures { Forced_signals_stay }
{}

/// A released net shows its hidden value, which is what its driver, updates and deposits left (IEEE 1364-2005, clause 9.3.2).
pub fn released_nets_show()
    ensures { Released_nets_show }
{}
