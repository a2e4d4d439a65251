/// One of the two parts into which a plane divides a solid.
#[derive(Clone, Copy)]
pub enum Part {
    /// The part behind the plane.
    Low,
    /// The part ahead of it.
    High,
}
