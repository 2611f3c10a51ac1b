//! What holds of the code of nodes, as contracts.

ghost use Rattle.cmm_emit.specs.Laws.{GraphsAreShort, NodesAreShort};

/// The code of a node has at most 32 instructions for each of its tokens, if they are enough for what it brings and moves.
#[tactic(auto, using(crate::proofs::Covering::nodes_are_short))]
pub fn nodes_are_short()
    ensures { NodesAreShort }
{}

/// The code of all nodes of a procedure, with one instruction behind it, is at most 64 instructions for each token of the procedure.
pub fn graphs_are_short()
    ensures { GraphsAreShort }
{}
