/// One coordinate of the image of a point `(x, y, z)`: `a x + b y + c z + d`.
#[derive(Clone, Copy, Debug, PartialEq, Eq)]
pub struct Row {
    pub a: i64,
    pub b: i64,
    pub c: i64,
    pub d: i64,
}

/// An affine map of space, by the rows of its three coordinates.
#[derive(Clone, Copy, Debug, PartialEq, Eq)]
pub struct Affine {
    pub x: Row,
    pub y: Row,
    pub z: Row,
}
