//! Half spaces.

ghost use Rattle.std.specs.Prelude.{◌≡◌, IfOk};
ghost use Rattle.plane_predicate.specs.Space.{ComesInReach};
ghost use Rattle.bsp_tree.specs.Trees.{half_space};
ghost use Rattle.bsp_tree.specs.Cells.{IsOfWorld};
ghost use Rattle.bsp_tree.specs.Shapes.{tree_of};

use crate::solid::Solid;
use link_forest::{Forest, Link};
use plain_text::NoMemory;
use plane_predicate::{Plane, planes_keep_their_form};
use plane_table::half_face;
use std::alloc::Global;

/// The points behind a plane, in the world box. The plane has a point with coordinates at most
/// 4095 in size.
pub fn half(alloc: Global, plane: &Plane) -> Result<Solid, NoMemory>
    requires { ComesInReach plane.now }
    ensures tree { IfOk result (λ s. tree_of s ≡ half_space plane.now) }
    ensures world { IfOk result (λ s. IsOfWorld (tree_of s)) }
{
    planes_keep_their_form(plane);
    half_of(alloc, plane)
}

// The node of a half space.
fn half_of(alloc: Global, plane: &Plane) -> Result<Solid, NoMemory>
    requires { ComesInReach plane.now }
    ensures { IfOk result (λ s. tree_of s ≡ half_space plane.now) }
{
    let own = half_face(alloc, plane)?;
    let mut forest = Forest::new(alloc);
    let id = forest.add(own.face, Link::End(true), Link::End(false))?;
    Ok(Solid::of_parts(own.planes, forest, Link::To(id)))
}
