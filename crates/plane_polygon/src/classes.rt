/// How a polygon lies against a plane.
#[derive(Clone, Copy, PartialEq, Eq)]
pub enum Class {
    /// Some corners are strictly behind the plane, and none is strictly ahead of it.
    Behind,
    /// Some corners are strictly ahead of the plane, and none is strictly behind it.
    Ahead,
    /// All corners are on the plane.
    On,
    /// Some corners lie strictly on each side.
    Across,
}
