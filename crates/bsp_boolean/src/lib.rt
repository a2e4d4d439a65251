//! Boolean operations on solids, by merging their BSP trees (Bernstein and Fussell).
#![tactic(auto)]

mod boxes;
mod branches;
mod building;
mod chains;
mod laws;
mod leaf_building;
mod leaves;
mod merging;
mod tree_solids;

pub use building::{Builder, PlainBuilder};
pub use laws::{merges_are_operations, one_tree_more, solids_are_their_trees};
pub use leaf_building::BuildStop;
pub use leaves::leaf_solid;
pub use merging::{merge, merge_within};
pub use tree_solids::{MOST_OF_ALL, MOST_OF_ONE, TreeStop, tree_solid};
