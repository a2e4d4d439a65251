//! Trees of constructive solid geometry over half spaces: their meaning, how they are joined, and their distinct subtrees as
//! numbered nodes with names.
#![tactic(auto)]

mod earlier;
mod front_hash;
mod interner;
mod join_names;
mod joining;
mod key;
mod laws;
mod levels;
mod named_store;
mod naming;
mod node;
mod numbering;
mod op;
mod parts;
mod planes;
mod store;
mod tree;
mod tree_key;

pub use joining::{balanced, join};
pub use key::byte_of;
pub use laws::{
    balanced_by_halves, joins_are_proper, joins_keep_the_meaning, joins_keep_within_reach,
};
pub use named_store::NamedStore;
pub use naming::{feed_tree, name_of_node};
pub use node::CsgNode;
pub use op::Op;
pub use planes::Planes;
pub use store::CsgStore;
pub use tree::CsgTree;
pub use tree_key::TreeKey;
