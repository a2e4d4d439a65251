//! Designs: shapes with the steps that move them, how they are joined, and how they are placed as trees of planes.
#![tactic(auto)]

mod design;
mod joining;
mod known;
mod laws;
mod leaf_shape;
mod placing;

pub use design::Design;
pub use joining::{balanced_join, join_children};
pub use laws::{
    designs_stay_trim, joins_of_designs_are_joins_of_trees, one_placing, placed_trees_are_proper,
    some_placing,
};
pub use leaf_shape::LeafShape;
pub use placing::place;
