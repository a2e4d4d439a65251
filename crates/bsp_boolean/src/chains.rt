//! Solids as faces one behind another, with nothing ahead of any of them.

ghost use Rattle.std.specs.Prelude.{◌≡◌, ◌++◌, [], ◌∷◌, map, All, IfOk, OnOk};
ghost use Rattle.plane_table.specs.Faces.{outline_of, IsFaceOver};
ghost use Rattle.bsp_tree.specs.Trees.{BspTree, inside, node_or_leaf, node, outside};
ghost use Rattle.bsp_tree.specs.Growths.{GrowsBy};
ghost use Rattle.bsp_tree.specs.Partitions.{divide};
ghost use Rattle.bsp_boolean.specs.Chains.{solid_after_step, part_behind_all, chain_of, kept_items, outlines_of, part_behind_face, IsChainOf, IsKeptOver, IsStepOver};

use bsp_tree::{GrowStop, Growing, Link};
use plain_text::NoMemory;
use plane_polygon::Class;
use plane_table::{Crossing, Face, Half, PlaneTable, cut, sides_where_across};
use std::alloc::Global;

/// How a face of a solid goes on behind another face's plane, with what lies behind it.
#[derive(Drop)]
pub enum Step {
    /// This much of the face, and behind it what lies behind the plane of this part of the other face.
    On(Option<Face>, Face),
    /// This much of the face, and behind it all that lay there.
    Whole(Option<Face>),
    /// Nothing.
    Nothing,
}

// What lies behind the planes of all of some faces, as the faces one behind another, or `None` where
// nothing does.
fn chain_behind(
    alloc: Global,
    table: &PlaneTable,
    faces: &[Face],
) -> Result<Option<Vec<Face>>, NoMemory>
    requires { All (IsFaceOver table.now) faces.now }
    ensures { IfOk result
        (IsChainOf table.now (part_behind_all (map (outline_of table.now) faces.now))) }
{
    match faces {
        [] => Ok(Some(Vec::new(alloc))),
        [first, others @ ..] => {
            let Some(rest) = chain_behind(alloc, table, others)? else {
                return Ok(None);
            };
            behind_first(alloc, table, first.copy(alloc)?, rest)
        }
    }
}

// A face, and behind it the part of a chain behind its plane.
fn behind_first(
    alloc: Global,
    table: &PlaneTable,
    first: Face,
    chain: Vec<Face>,
) -> Result<Option<Vec<Face>>, NoMemory>
    requires first { IsFaceOver table.now first }
    requires chain { All (IsFaceOver table.now) chain.items }
    ensures { IfOk result
        (IsChainOf table.now
        (chain_of (outline_of table.now first ∷ [])
        (divide (chain_of (outlines_of table.now chain.items) inside)
        (outline_of table.now first)).0)) }
{
    let mut low = Vec::with_capacity(alloc, chain.len().saturating_add(1))?;
    let mut by = Some(first.copy(alloc)?);
    low.push(first)?;
    for face in chain {
        match next_step(alloc, table, face, by)? {
            Step::On(kept, part) => {
                push_kept(&mut low, kept)?;
                by = Some(part);
            }
            Step::Whole(kept) => {
                push_kept(&mut low, kept)?;
                by = None;
            }
            Step::Nothing => return Ok(None),
        }
    }
    Ok(Some(low))
}

// Adds a face, if there is one.
fn push_kept(low: &mut Vec<Face>, kept: Option<Face>) -> Result<(), NoMemory>
    ensures { OnOk result (low.new.items ≡ low.old.items ++ kept_items kept) }
{
    if let Some(face) = kept {
        low.push(face)?;
    }
    Ok(())
}

// How a face goes on behind another one's plane, if there is another one.
fn next_step(
    alloc: Global,
    table: &PlaneTable,
    face: Face,
    by: Option<Face>,
) -> Result<Step, NoMemory>
    requires face { IsFaceOver table.now face }
    requires by { IsKeptOver table.now by }
    ensures over { IfOk result (IsStepOver table.now) }
    ensures gives { IfOk result
        (λ r. (t : BspTree) →
        part_behind_face table.now by (node_or_leaf (outline_of table.now face) t outside)
        ≡ solid_after_step table.now r t) }
{
    match by {
        Some(by) => step_behind(alloc, table, face, by),
        None => Ok(Step::Whole(Some(face))),
    }
}

// How a face goes on behind another one's plane.
fn step_behind(alloc: Global, table: &PlaneTable, face: Face, by: Face) -> Result<Step, NoMemory>
    requires face { IsFaceOver table.now face }
    requires by { IsFaceOver table.now by }
    ensures over { IfOk result (IsStepOver table.now) }
    ensures gives { IfOk result
        (λ r. (t : BspTree) →
        (divide (node (outline_of table.now face) t outside) (outline_of table.now by)).0
        ≡ solid_after_step table.now r t) }
{
    if table.is_same(face.plane, by.plane) {
        return Ok(Step::Whole(None));
    }
    if table.is_opposite(face.plane, by.plane) {
        return Ok(Step::Nothing);
    }
    let of_by = sides_where_across(alloc, table, &by, face.plane)?;
    let of_own = sides_where_across(alloc, table, &face, by.plane)?;
    match (of_by.class, of_own.class) {
        (Class::Across, Class::Across) => {
            let own = Crossing {
                face: &face,
                number: by.plane,
                sides: &of_own,
            };
            let kept = cut(alloc, table, own, Half::Behind)?;
            let other = Crossing {
                face: &by,
                number: face.plane,
                sides: &of_by,
            };
            let part = cut(alloc, table, other, Half::Behind)?;
            Ok(Step::On(Some(kept), part))
        }
        (Class::Behind, Class::Behind) => Ok(Step::On(Some(face), by)),
        (Class::Behind, Class::Ahead) => Ok(Step::On(None, by)),
        (Class::Ahead, Class::Behind) => Ok(Step::Whole(Some(face))),
        (Class::Ahead, Class::Ahead) => Ok(Step::Nothing),
        _ => Ok(Step::Whole(None)),
    }
}

/// Adds what lies behind the planes of all of some faces to what grows.
pub fn grow_behind(
    alloc: Global,
    growing: &mut Growing<'_>,
    table: &PlaneTable,
    faces: &[Face],
) -> Result<Link, GrowStop>
    requires table { growing.old.sheet.planes ≡ table.now }
    requires faces { All (IsFaceOver table.now) faces.now }
    ensures { GrowsBy growing.old growing.new
        (part_behind_all (map (outline_of table.now) faces.now)) result }
{
    let chain = chain_behind(alloc, table, faces)?;
    grow_chain(alloc, growing, &chain)
}

// Adds the solid of a chain, or of none, to what grows.
fn grow_chain(
    alloc: Global,
    growing: &mut Growing<'_>,
    chain: &Option<Vec<Face>>,
) -> Result<Link, GrowStop>
    requires { (t : BspTree) × IsChainOf growing.old.sheet.planes t chain.now }
    ensures { (t : BspTree) → IsChainOf growing.old.sheet.planes t chain.now →
        GrowsBy growing.old growing.new t result }
{
    match chain {
        Some(faces) => grow_faces(alloc, growing, faces),
        None => Ok(Link::End(false)),
    }
}

/// Adds the solid of faces one behind another to what grows.
pub fn grow_faces(
    alloc: Global,
    growing: &mut Growing<'_>,
    faces: &[Face],
) -> Result<Link, GrowStop>
    requires { All (IsFaceOver growing.old.sheet.planes) faces.now }
    ensures { GrowsBy growing.old growing.new
        (chain_of (outlines_of growing.old.sheet.planes faces.now) inside) result }
{
    match faces {
        [] => Ok(Link::End(true)),
        [face, others @ ..] => {
            let behind = grow_faces(alloc, growing, others)?;
            growing.make(face.copy(alloc)?, behind, Link::End(false))
        }
    }
}
