//! Exports of trees: from a tree in world position to the text of its boundary, or to the first limit that it exceeds.
#![tactic(auto)]

mod export;
mod laws;

pub use export::{TreeExport, export_made, export_tree, nodes_of_tree, solid_of_nothing};
pub use laws::{
    a_box_has_its_text, last_nodes_are_trees, nothing_has_the_empty_text, one_export,
    small_leaves_are_texts, some_export, texts_pass_no_limit,
};
