//! Solids as binary space partitions (BSP trees).
#![tactic(auto)]

mod copying;
mod exchanging;
mod finishing;
mod growing;
mod half_spaces;
mod laws;
mod links;
mod moved_nodes;
mod nodes;
mod part;
mod ranges;
mod solid;
mod walking;

pub use copying::{add_branch, solid_over};
pub use exchanging::exchange;
pub use finishing::{finish, solid_at};
pub use growing::{GrowStop, Growing};
pub use half_spaces::half;
pub use laws::{parts_are_of_halves, world_box_is_a_cell};
pub use link_forest::{Forest, Link, NodeId};
pub use links::{exchanged_leaf, is_alike, is_same_leaf};
pub use moved_nodes::{MovedNodes, add_moved};
pub use nodes::Nodes;
pub use part::Part;
pub use plane_table::{Edges, Face};
pub use solid::Solid;
pub use walking::holds;
