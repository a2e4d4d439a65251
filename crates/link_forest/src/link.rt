/// The number of a node in its forest, from 0 on.
#[derive(Clone, Copy, PartialEq, Eq)]
pub struct NodeId {
    pub index: usize,
}

/// Where a branch of a tree goes on: an end of one of two kinds, or a node.
#[derive(Clone, Copy, PartialEq, Eq)]
pub enum Link {
    /// The branch ends here.
    End(bool),
    /// The branch goes on at this node.
    To(NodeId),
}
