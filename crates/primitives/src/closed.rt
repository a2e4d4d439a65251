//! Closed surfaces.

ghost use Rattle.std.specs.Prelude.{◌≡◌, ◌<◌, ◌↔◌, All, Any, IfOk, IfSome, IsNone, IsTrue, length};
ghost use Rattle.std.specs.Bool.{OnTrue, OnFalse};
ghost use Rattle.std.specs.BTreeSet.{contains};
ghost use Rattle.primitives.specs.Checks.{AreCornersThere, IsClosedMesh};
ghost use Rattle.primitives.specs.DirectedEdges.{AreDifferent, AreMetBothWays, IsMet, reversed_edge};

use crate::Corners;
use crate::ways::{DirectedEdge, ways_of_faces};
use std::alloc::{AllocError, Global};
use std::collections::BTreeSet;

/// Whether each directed edge of a face is met exactly once, and so is its reverse.
pub fn are_closed(alloc: Global, points: &[[i64; 3]], faces: &[Corners]) -> Result<bool, AllocError>
    requires { AreCornersThere (length points.now) faces.now }
    ensures all { IfOk result (λ b. OnTrue b (IsClosedMesh points.now faces.now)) }
    ensures past { IfOk result (λ b. OnFalse b (IsClosedMesh points.now faces.now → ⊥)) }
{
    let ways = ways_of_faces(alloc, points, faces)?;
    are_met_both_ways(alloc, &ways)
}

// Whether each of some directed edges is met exactly once, and so is its reverse.
fn are_met_both_ways(alloc: Global, ways: &[DirectedEdge]) -> Result<bool, AllocError>
    ensures all { IfOk result (λ b. OnTrue b (AreMetBothWays ways.now)) }
    ensures past { IfOk result (λ b. OnFalse b (AreMetBothWays ways.now → ⊥)) }
{
    match met(alloc, ways)? {
        None => Ok(false),
        Some(met) => Ok(are_met_back(&met, ways)),
    }
}

// The set of some directed edges. `None` where two of them are the same.
fn met(alloc: Global, ways: &[DirectedEdge]) -> Result<Option<BTreeSet<DirectedEdge>>, AllocError>
    ensures set { IfOk result (λ o. IfSome o (λ s. (w : DirectedEdge) →
        IsTrue (contains ⟦<DirectedEdge as Ord>⟧.cmp s w) ↔ IsMet ways.now w)) }
    ensures different { IfOk result (λ o. IfSome o (λ s. AreDifferent ways.now)) }
    ensures same { IfOk result (λ o. IsNone o → AreDifferent ways.now → ⊥) }
{
    let mut met = BTreeSet::new(alloc);
    for way in ways {
        if !met.insert(*way)? {
            return Ok(None);
        }
    }
    Ok(Some(met))
}

// Whether each of some directed edges has its reverse in a set.
fn are_met_back(met: &BTreeSet<DirectedEdge>, ways: &[DirectedEdge]) -> bool
    ensures all { OnTrue result (All (λ w. IsTrue
        (contains ⟦<DirectedEdge as Ord>⟧.cmp met.now (reversed_edge w)))
        ways.now) }
    ensures past { OnFalse result (All
        (λ w. IsTrue (contains ⟦<DirectedEdge as Ord>⟧.cmp met.now (reversed_edge w))) ways.now → ⊥) }
{
    for way in ways {
        if !met.contains(&way.back()) {
            return false;
        }
    }
    true
}
