//! The facets of a solid: the parts of its nodes' polygons that have the solid on exactly one side.
#![tactic(auto)]

mod adding;
mod cutting;
mod facet;
mod laws;
mod stops;
mod walls;

pub use cutting::facets;
pub use facet::Facet;
pub use laws::{facets_are_polygons, facets_bound_their_solid, reversed_polygons_are_polygons};
pub use stops::CutStop;
