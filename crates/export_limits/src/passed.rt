//! Which limits an export may pass.

/// The limit that an export passes.
#[derive(Clone, Copy)]
pub enum PassedLimit {
    /// The solid of this node is too large.
    Solid(u32),
    /// The solids up to this node are too large together.
    Sum(u32),
    Facets,
    Corners,
    Vertices,
}
