//! What a built-in module's arguments come to: a shape, a step, or the children that are wanted.

use csg_tree::Op;
use int_transform::Step;
use primitives::Corners;

/// A solid shape, with lengths and points in units.
#[derive(Drop)]
pub enum SolidShape {
    Cube {
        size: [i64; 3],
        center: bool,
    },
    Polyhedron {
        points: Vec<[i64; 3]>,
        faces: Vec<Corners>,
    },
    /// The radii of its low and its high end.
    Cylinder {
        height: i64,
        low: i64,
        high: i64,
        center: bool,
    },
}

/// A shape in the plane, with lengths and points in units.
#[derive(Drop)]
pub enum FlatShape {
    Square { size: [i64; 2], center: bool },
    Polygon { points: Vec<[i64; 2]> },
    Circle { radius: i64 },
}

/// Which children of the enclosing call are wanted.
#[derive(Drop)]
pub enum Chosen {
    All,
    /// Those of these numbers from 0, in this order.
    Numbered(Vec<i64>),
    /// Those of the numbers from one on, by a step, up to another one.
    Range { from: i64, by: i64, upto: i64 },
}

/// What a call of a built-in module does.
#[derive(Drop)]
pub enum Effect {
    Solid(SolidShape),
    Flat(FlatShape),
    /// The union of its children, moved by steps in grid steps, of which the first is done first.
    Move(Vec<Step>),
    /// Its children joined.
    Join(Op),
    /// The hull of the union of its children.
    Hull,
    /// The union of its children, shapes in the plane, extruded by a height in units.
    Extrusion { height: i64, center: bool },
    /// No solid, and no child of the call around it.
    Nothing,
    /// Children of the enclosing call.
    Children(Chosen),
}
