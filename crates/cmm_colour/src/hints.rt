//! What is known of a node besides its conflicts. No clause depends on it.

/// How a node is used, and which colour suits it.
#[derive(Clone, Copy, Drop)]
pub struct Hint {
    /// How often the node is used. Of the nodes that may stay without a colour, the one with the most conflicts for its uses is the first.
    pub uses: u32,
    /// The colour that the node gets if no neighbour has it, if one suits it.
    pub preferred: Option<u32>,
}

/// How often a node is used. A node without a hint is not.
pub(crate) fn uses(hints: &[Hint], node: u32) -> u32 {
    match hints.get(node as usize) {
        Some(hint) => hint.uses,
        None => 0,
    }
}

/// The colour that suits a node, if one does.
pub(crate) fn preferred(hints: &[Hint], node: u32) -> Option<u32> {
    hints.get(node as usize)?.preferred
}
