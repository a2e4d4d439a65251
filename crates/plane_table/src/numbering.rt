//! The numbers of planes over lists of planes that grow.

ghost use Rattle.std.specs.Prelude.{◌≡◌, ◌<◌, ◌*◌, ◌/◌, ◌^◌, ◌++◌, [], ◌∷◌, ℕ, length, get_or, All, IfOk, IfSome, IfNone};
ghost use Rattle.plane_predicate.specs.Space.{ComesInReach};
ghost use Rattle.plane_polygon.specs.Boxes.{box_outline};
ghost use Rattle.plane_polygon.specs.Polygons.{missing_plane};
ghost use Rattle.plane_table.specs.Tables.{plane_named, oriented_by_number, AreApart, HasNoTwoAlike, NamesPlaneIn};
ghost use Rattle.plane_table.specs.Joins.{AreHalfFacesOf, AreNumbersOf, IsOwnFaceOf, HasNumberOver, KeepsNumbers};

use crate::ordering::in_order;
use crate::{Edges, Face};
use plain_text::NoMemory;
use plane_polygon::{Polygon, box_polygon, polygons_keep_their_form, world_planes};
use plane_predicate::{Plane, opposite, planes_keep_their_form};
use std::alloc::Global;

/// The greatest number of planes in a list: twice as many numbers fit 32 bits.
pub const MOST_PLANES: usize = 2_147_483_648;

/// A face with the list of its planes, no two of which are equal or opposite.
#[derive(Drop)]
pub struct OwnFace {
    /// The planes that the face's numbers name.
    pub planes: Vec<Plane>,
    /// The face.
    pub face: Face,
}

/// The face that a plane has in the world box, over a list of just the planes that it names. The plane
/// has a point with coordinates at most 4095 in size.
pub fn half_face(alloc: Global, plane: &Plane) -> Result<OwnFace, NoMemory>
    requires { ComesInReach plane.now }
    ensures { IfOk result (λ r. IsOwnFaceOf (box_outline plane.now) r) }
{
    face_of(alloc, &box_polygon(alloc, plane)?)
}

/// A polygon as a face over a list of just the planes that it names.
pub fn face_of(alloc: Global, polygon: &Polygon) -> Result<OwnFace, NoMemory>
    ensures { IfOk result (λ r. IsOwnFaceOf polygon.now r) }
{
    let mut planes = Vec::from_slice(alloc, polygon.edges())?;
    planes.push(*polygon.plane())?;
    own_face(alloc, in_order(alloc, planes)?, polygon)
}

/// Faces over one list of planes, no two of which are equal or opposite.
#[derive(Drop)]
pub struct HalfFaces {
    /// The planes over which the faces' numbers are: those of the world box, and the given ones.
    pub planes: Vec<Plane>,
    /// The faces.
    pub faces: Vec<Face>,
}

/// The faces that planes have in the world box, in order. Each plane has a point with coordinates at
/// most 4095 in size.
pub fn half_faces(alloc: Global, from: &[Plane]) -> Result<HalfFaces, NoMemory>
    requires { All ComesInReach from.now }
    ensures { IfOk result (AreHalfFacesOf from.now) }
{
    let mut planes = world_planes(alloc)?;
    planes.extend_from_slice(from)?;
    half_faces_over(alloc, in_order(alloc, planes)?, from)
}

// The same over a list to which the planes that it lacks are added.
fn half_faces_over(alloc: Global, known: Vec<Plane>, from: &[Plane]) -> Result<HalfFaces, NoMemory>
    requires apart { HasNoTwoAlike known.items }
    requires reach { All ComesInReach from.now }
    ensures { IfOk result (AreHalfFacesOf from.now) }
{
    let mut planes = known;
    let mut faces = Vec::with_capacity(alloc, from.len())?;
    for plane in from {
        planes_keep_their_form(plane);
        let own = own_face(alloc, planes, &box_polygon(alloc, plane)?)?;
        planes = own.planes;
        faces.push(own.face)?;
    }
    Ok(HalfFaces { planes, faces })
}

// A polygon as a face over a list to which the planes that it lacks are added.
fn own_face(alloc: Global, known: Vec<Plane>, polygon: &Polygon) -> Result<OwnFace, NoMemory>
    requires { HasNoTwoAlike known.items }
    ensures face { IfOk result (λ r. IsOwnFaceOf polygon.now r) }
    ensures keeps { IfOk result (λ r. KeepsNumbers known.items r.planes.items) }
{
    polygons_keep_their_form(polygon);
    let mut planes = known;
    let plane = number_of(polygon.plane(), &mut planes)?;
    let found = numbers_of(alloc, planes, polygon.edges())?;
    let edges = Edges::copy_of(alloc, &found.numbers)?;
    Ok(OwnFace {
        planes: found.planes,
        face: Face { plane, edges },
    })
}

/// A list of planes, no two of which are equal or opposite, with the numbers of other planes over it.
#[derive(Drop)]
pub struct NumberedPlanes {
    pub planes: Vec<Plane>,
    pub numbers: Vec<u32>,
}

/// The numbers of planes over a list to which those that it lacks are added.
pub fn numbers_of(
    alloc: Global,
    known: Vec<Plane>,
    from: &[Plane],
) -> Result<NumberedPlanes, NoMemory>
    requires { HasNoTwoAlike known.items }
    ensures apart { IfOk result (λ r. HasNoTwoAlike r.planes.items) }
    ensures keeps { IfOk result (λ r. KeepsNumbers known.items r.planes.items) }
    ensures numbers { IfOk result (λ r. AreNumbersOf r.planes.items r.numbers.items from.now) }
{
    let mut planes = known;
    let mut numbers = Vec::with_capacity(alloc, from.len())?;
    for plane in from {
        numbers.push(number_of(plane, &mut planes)?)?;
    }
    Ok(NumberedPlanes { planes, numbers })
}

// The number of a plane over a list, to which it is added where neither it nor its opposite stands
// there.
fn number_of(plane: &Plane, planes: &mut Vec<Plane>) -> Result<u32, NoMemory>
    requires { HasNoTwoAlike planes.old.items }
    ensures { IfOk result (λ n. HasNumberOver plane.now planes.old.items planes.new.items n) }
{
    if planes.len() >= MOST_PLANES {
        return Err(NoMemory);
    }
    match find(plane, planes) {
        Some(number) => Ok(number),
        None => add(plane, planes),
    }
}

/// Adds a plane to a list, and gives the number that it has there. `NoMemory` where the list has no
/// number left.
pub fn add(plane: &Plane, planes: &mut Vec<Plane>) -> Result<u32, NoMemory>
    ensures items { IfOk result (λ n. planes.new.items ≡ planes.old.items ++ plane.now ∷ []) }
    ensures number { IfOk result (λ n. n ≡ 2 * length planes.old.items) }
{
    if planes.len() >= MOST_PLANES {
        return Err(NoMemory);
    }
    let number = 2 * planes.len() as u32;
    planes.push(*plane)?;
    Ok(number)
}

// The number that a plane has over a list, if it or its opposite stands there.
fn find(plane: &Plane, planes: &[Plane]) -> Option<u32>
    requires { length planes.now < 2 ^ 31 }
    ensures some { IfSome result
        (λ n. NamesPlaneIn planes.now n × (plane_named planes.now n ≡ plane.now)) }
    ensures none { IfNone result
        ((i : ℕ) → i < length planes.now → AreApart (get_or planes.now i missing_plane) plane.now) }
{
    for i in 0..planes.len() {
        if let Some(number) = number_at(plane, &planes[i], i) {
            return Some(number);
        }
    }
    None
}

/// The number that a plane has where the plane of some index is equal or opposite to it.
pub fn number_at(plane: &Plane, other: &Plane, index: usize) -> Option<u32>
    requires { index < 2 ^ 31 }
    ensures some { IfSome result
        (λ n. (n / 2 ≡ index) × (plane.now ≡ oriented_by_number n other.now)) }
    ensures none { IfNone result (AreApart other.now plane.now) }
{
    let number = 2 * index as u32;
    if other == plane {
        Some(number)
    } else if *other == opposite(plane) {
        Some(number + 1)
    } else {
        None
    }
}
