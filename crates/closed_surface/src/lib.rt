//! Closed surfaces: what it means for faces to leave no hole along their edges, and why the facets of a solid leave none.
#![tactic(auto)]

mod facet_laws;
mod laws;

pub use facet_laws::{
    edges_bound_what_is_covered, edges_run_on, edges_run_on_their_planes, facets_are_closed,
};
pub use laws::{printed_faces_are_closed, values_round_a_line_cancel};
