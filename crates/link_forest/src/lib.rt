//! Forests of binary trees, with all nodes in one list and linked by number.
#![tactic(auto)]

mod forest;
mod laws;
mod link;

pub use forest::{Entry, Forest};
pub use laws::{
    ends_have_no_nodes, links_reach_nodes, longer_forests_keep_trees, nodes_are_over_their_links,
};
pub use link::{Link, NodeId};
