//! What a source means, in words: its tree, in which a box stands as its sides from low to high along x, y and z, and any
//! other leaf as its planes.

ghost use Rattle.std.specs.Prelude.{◌≤◌, ◌^◌, length};

use crate::text::put_stop;
use case_lines::{put, put_number, put_planes};
use csg_tree::{CsgTree, Op};
use plane_predicate::{Plane, Unit};
use scad_eval::evaluate;
use scad_parser::with_program;
use std::alloc::Global;
use text_place::NoMemory;

// Where the first of some planes with a normal stands.
fn bound(planes: &[Plane], normal: (i64, i64, i64)) -> Option<i64> {
    for p in planes {
        if p.a == normal.0 && p.b == normal.1 && p.c == normal.2 {
            return Some(p.d);
        }
    }
    None
}

// The two sides across an axis.
fn put_sides(alloc: Global, out: &mut Vec<u8>, sides: (i64, i64)) -> Result<(), NoMemory> {
    put_number(alloc, out, -i128::from(sides.0))?;
    put(out, b"..")?;
    put_number(alloc, out, i128::from(sides.1))
}

fn sides(planes: &[Plane], low: (i64, i64, i64), high: (i64, i64, i64)) -> Option<(i64, i64)> {
    Some((bound(planes, low)?, bound(planes, high)?))
}

// The sides of a box across the axes.
#[derive(Clone, Copy)]
struct BoxSides {
    x: (i64, i64),
    y: (i64, i64),
    z: (i64, i64),
}

// The sides of a leaf of six planes that are all across axes.
fn box_sides(planes: &[Plane]) -> Option<BoxSides> {
    if planes.len() != 6 {
        return None;
    }
    Some(BoxSides {
        x: sides(planes, (-1, 0, 0), (1, 0, 0))?,
        y: sides(planes, (0, -1, 0), (0, 1, 0))?,
        z: sides(planes, (0, 0, -1), (0, 0, 1))?,
    })
}

fn put_leaf(alloc: Global, out: &mut Vec<u8>, planes: &[Plane]) -> Result<(), NoMemory> {
    put(out, b"[")?;
    match box_sides(planes) {
        Some(sides) => {
            put_sides(alloc, out, sides.x)?;
            put(out, b" ")?;
            put_sides(alloc, out, sides.y)?;
            put(out, b" ")?;
            put_sides(alloc, out, sides.z)?;
        }
        None => put_planes(alloc, out, planes)?,
    }
    put(out, b"]")
}

fn sign(op: Op) -> &'static [u8] {
    match op {
        Op::Union => b"(+ ",
        Op::Intersection => b"(* ",
        Op::Difference => b"(- ",
    }
}

#[cycle(trees)]
fn put_tree(alloc: Global, out: &mut Vec<u8>, tree: &CsgTree) -> Result<(), NoMemory> {
    match tree {
        CsgTree::Nothing => put(out, b"nothing"),
        CsgTree::Leaf(planes) => put_leaf(alloc, out, planes.items()),
        CsgTree::Join(op, left, right) => {
            put(out, sign(*op))?;
            put_tree(alloc, out, left)?;
            put(out, b" ")?;
            put_tree(alloc, out, right)?;
            put(out, b")")
        }
    }
}

/// The tree that a source means in a unit, or its first fault.
pub fn put_meaning(
    alloc: Global,
    out: &mut Vec<u8>,
    source: &[u8],
    unit: Unit,
) -> Result<(), NoMemory>
    requires { length source.now ≤ 2 ^ 20 }
{
    match with_program(alloc, source, |program| evaluate(alloc, program, unit)) {
        Ok(tree) => put_tree(alloc, out, &tree),
        Err(stop) => put_stop(alloc, out, stop),
    }
}
