/// The height through which shapes in the plane are moved, in units.
#[derive(Clone, Copy)]
pub struct Extrusion {
    pub center: bool,
    pub height: i64,
}
