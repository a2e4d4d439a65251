//! The walk of a point.

ghost use Rattle.std.specs.Prelude.{◌≡◌};
ghost use Rattle.link_forest.specs.Forests.{IsLinkOf};
ghost use Rattle.plane_table.specs.Tables.{plane_named, NamesPlaneIn};
ghost use Rattle.plane_polygon.specs.Parts.{is_behind};
ghost use Rattle.bsp_tree.specs.Trees.{walk};
ghost use Rattle.bsp_tree.specs.Shapes.{tree_of, tree_at_link, AreFacesOver};

use crate::solid::Solid;
use link_forest::{Forest, Link};
use plane_predicate::{Plane, Point, opposite, point_side};
use plane_table::Face;

/// Whether a point that is on none of the solid's planes lies inside it. A point on a plane is
/// answered as if it lay ahead of it.
pub fn holds(solid: &Solid, point: &Point) -> bool
    ensures { result ≡ walk (tree_of solid.now) point.now }
{
    let (planes, forest, root) = solid.parts();
    holds_at(planes, forest, root, point)
}

// The same from a link on.
fn holds_at(planes: &[Plane], forest: &Forest<Face>, at: Link, point: &Point) -> bool
    requires faces { AreFacesOver planes.now forest.now.nodes }
    requires link { IsLinkOf forest.now.nodes at }
    ensures { result ≡ walk (tree_at_link planes.now forest.now.nodes at) point.now }
{
    match at {
        Link::End(is_inside) => is_inside,
        Link::To(id) => {
            let (face, behind, ahead) = forest.at(id);
            if lies_behind(&plane_named(planes, face.plane), point) {
                holds_at(planes, forest, behind, point)
            } else {
                holds_at(planes, forest, ahead, point)
            }
        }
    }
}

// The plane that a number names over a list.
#[tactic(auto, unfolding(plane_table::specs::Tables::oriented_by_number))]
fn plane_named(planes: &[Plane], number: u32) -> Plane
    requires { NamesPlaneIn planes.now number }
    ensures { result ≡ plane_named planes.now number }
{
    let plane = planes[(number / 2) as usize];
    if number % 2 == 0 {
        plane
    } else {
        opposite(&plane)
    }
}

// Whether a point is strictly behind a plane.
fn lies_behind(plane: &Plane, point: &Point) -> bool
    ensures { result ≡ is_behind plane.now point.now }
{
    point_side(plane, point).is_behind()
}
