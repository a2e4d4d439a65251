//! The directed edges of faces.

ghost use Rattle.std.specs.Prelude.{◌≡◌, ◌<◌, ◌++◌, All, IfOk, OnOk, length};
ghost use Rattle.primitives.specs.DirectedEdges.{next_in_face, all_edges, edges_of_mesh_face, edge_between, reversed_edge};
ghost use Rattle.primitives.specs.Checks.{AreCornersThere};

use crate::Corners;
use std::alloc::{AllocError, Global};

/// A directed edge of a face, from one point to the next one.
#[derive(Clone, Copy, PartialEq, Eq, PartialOrd, Ord)]
pub struct DirectedEdge {
    pub from: [i64; 3],
    pub to: [i64; 3],
}

impl DirectedEdge {
    /// Its reverse.
    pub fn back(self) -> DirectedEdge
        ensures { result ≡ reversed_edge self }
    {
        let from = self.to;
        let to = self.from;
        DirectedEdge { from, to }
    }
}

/// The directed edges of all faces, in order. Between equal points there is none.
pub fn ways_of_faces(
    alloc: Global,
    points: &[[i64; 3]],
    faces: &[Corners],
) -> Result<Vec<DirectedEdge>, AllocError>
    requires { AreCornersThere (length points.now) faces.now }
    ensures { IfOk result (λ v. v.items ≡ all_edges points.now faces.now) }
{
    let mut ways = Vec::new(alloc);
    for face in faces {
        push_ways(&mut ways, points, face.items())?;
    }
    Ok(ways)
}

/// Adds the directed edges of one face.
pub fn push_ways(
    ways: &mut Vec<DirectedEdge>,
    points: &[[i64; 3]],
    face: &[u32],
) -> Result<(), AllocError>
    requires { All (λ i. i < length points.now) face.now }
    ensures { OnOk result (ways.new.items ≡ ways.old.items ++ edges_of_mesh_face points.now face.now) }
{
    for k in 0..face.len() {
        let next = next_place(k, face.len());
        push_way(ways, points[face[k] as usize], points[face[next] as usize])?;
    }
    Ok(())
}

// The place that follows in a face of the given number of corners: the first follows the last.
fn next_place(place: usize, corners: usize) -> usize
    requires { place < corners }
    ensures next { result ≡ next_in_face place corners }
    ensures within { result < corners }
{
    if place + 1 == corners { 0 } else { place + 1 }
}

// Adds the directed edge between two points, if they are different.
fn push_way(ways: &mut Vec<DirectedEdge>, from: [i64; 3], to: [i64; 3]) -> Result<(), AllocError>
    ensures { OnOk result (ways.new.items ≡ ways.old.items ++ edge_between from to) }
{
    if from != to {
        ways.push(DirectedEdge { from, to })?;
    }
    Ok(())
}
