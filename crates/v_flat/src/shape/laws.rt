//! Laws of the definition of elaboration, for all texts.

ghost use Rattle.std.specs.Prelude.{◌≡◌, ◌≤◌, ℕ, IsTrue, List, Option, Some, length, map, slice_get};
ghost use Rattle.gpi.specs.Soundness.{IsTree, are_nodes, are_wide};
ghost use Rattle.v_flat.specs.Scope.Found.{HoldsOk};
ghost use Rattle.v_flat.specs.Scope.Limits.{most_parts};
ghost use Rattle.v_flat.specs.Paths.{SignalAt, node_of, signal_of};
ghost use Rattle.v_flat.specs.Design.{Design, Modules, flat_design};

/// The instances of a design form one tree under the top (IEEE 1364-2005, clause 12.1): node 0 is no child, every other node is the child of
/// one, once, and node 0 is above all.
pub fn instances_form_a_tree()
    ensures { (ms : Modules) (top : Option (List ℕ)) → HoldsOk (λ (d : Design). IsTree (map node_of d.nodes)) (flat_design ms top) }
{}

/// A design has at most 65,536 instances and as many processes.
pub fn lists_are_short()
    ensures { (ms : Modules) (top : Option (List ℕ))
        → HoldsOk (λ (d : Design). (length d.nodes ≤ most_parts) × (length d.processes ≤ most_parts)) (flat_design ms top) }
{}

/// A design has at most 65,536 signals of 1 to 128 digits each, and each name of an instance is one of the design's signals or instances.
pub fn signals_fit()
    ensures { (ms : Modules) (top : Option (List ℕ))
        → HoldsOk (λ (d : Design). (length d.signals ≤ most_parts) × IsTrue (are_wide (map signal_of d.signals))
        × IsTrue (are_nodes (length d.nodes) (length d.signals) (map node_of d.nodes))) (flat_design ms top) }
{}

/// No two signals of a design have one path, where a word of a memory has its index too (IEEE 1364-2005, clause 12.4): signals at two numbers
/// have two paths, or are two words of one memory.
pub fn paths_differ()
    ensures { (ms : Modules) (top : Option (List ℕ)) → HoldsOk (λ (d : Design). (i j : ℕ) (x y : SignalAt)
        → slice_get d.signals i ≡ Some x → slice_get d.signals j ≡ Some y → x.path ≡ y.path → x.word ≡ y.word → i ≡ j) (flat_design ms top) }
{}
