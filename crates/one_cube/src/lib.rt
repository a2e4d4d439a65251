//! A law about one cube, from the bytes of its source, by way of its tokens, its program and its tree, to the bytes of its
//! text.
#![tactic(auto)]

mod laws;

pub use laws::one_cube_from_source_to_text;
