//! Laws of texts, which do nothing when they run: when a text is watertight, and that faces of one plane share no inner point.
#![tactic(auto)]

mod laws;

pub use laws::{
    closed_at_every_point, elementary_edges_pair, faces_share_no_inner_point, texts_are_watertight,
    texts_keep_within_reach,
};
