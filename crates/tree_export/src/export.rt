//! What the export of a tree gives.

ghost use Rattle.std.specs.Prelude.{◌≡◌, IfOk, IfErr, OnOk, OnErr};
ghost use Rattle.std.specs.Arc.{arc_value};
ghost use Rattle.csg_tree.specs.HalfSpaceTrees.{Tree};
ghost use Rattle.csg_tree.specs.ProperTrees.{IsProper};
ghost use Rattle.csg_tree.specs.Numberings.{nodes_of};
ghost use Rattle.csg_tree.specs.Trees.{plain_tree_of};
ghost use Rattle.bsp_tree.specs.Shapes.{tree_of};
ghost use Rattle.bsp_tree.specs.Trees.{outside};
ghost use Rattle.bsp_boolean.specs.Solids.{solid_of};
ghost use Rattle.bsp_boolean.specs.TreeSolids.{AreWithinSizeLimits, IsTreeStop};
ghost use Rattle.facet_cut.specs.Facets.{facets_of};
ghost use Rattle.export_limits.specs.declared.passed.PassedLimit.{PassedLimit as Limit};
ghost use Rattle.export_limits.specs.Limits.{IsSizeLimit};
ghost use Rattle.tree_export.specs.declared.export.TreeExport.TheVariants as exported;
ghost use Rattle.tree_export.specs.Exports.{IsTextOutcome, IsFacetOutcome, IsExported, IsBoundaryText, IsSolidOutcome};

use bsp_boolean::{PlainBuilder, TreeStop, tree_solid};
use bsp_tree::Solid;
use csg_tree::{CsgStore, CsgTree};
use export_limits::PassedLimit;
use facet_cut::{CutStop, Facet, facets};
use off_text::{OffStop, off_bytes};
use plain_text::{Bytes, NoMemory};
use plane_predicate::Unit;
use std::alloc::Global;
use std::sync::Arc;

// The most facets of an export.
const FACETS: u32 = 20_000;

/// What the export of a tree gives.
#[derive(Drop)]
pub enum TreeExport {
    /// The bytes of its 4OFF text.
    Text(Bytes),
    /// The first limit that it passes.
    PassedLimit(PassedLimit),
}

// What facets within their limit give.
fn write_facets(alloc: Global, facets: &[Facet], unit: Unit) -> Result<TreeExport, NoMemory>
    ensures written { IfOk result (IsTextOutcome unit facets.now) }
    ensures boundary { (f : Tree) → IsProper f → facets.now ≡ facets_of (solid_of f) →
        IfOk result (IsBoundaryText unit f) }
{
    match off_bytes(alloc, facets, unit) {
        Ok(bytes) => Ok(TreeExport::Text(Bytes::of(bytes))),
        Err(OffStop::TooManyCorners) => Ok(TreeExport::PassedLimit(PassedLimit::Corners)),
        Err(OffStop::TooManyVertices) => Ok(TreeExport::PassedLimit(PassedLimit::Vertices)),
        Err(OffStop::NoMemory) => Err(NoMemory),
    }
}

// What a solid within the limits of size gives.
fn cut_solid(alloc: Global, solid: &Solid, unit: Unit) -> Result<TreeExport, NoMemory>
    ensures cut { IfOk result (IsFacetOutcome unit (facets_of (tree_of solid.now))) }
    ensures boundary { (f : Tree) → IsProper f → tree_of solid.now ≡ solid_of f →
        IfOk result (IsBoundaryText unit f) }
{
    match facets(alloc, solid, FACETS) {
        Ok(facets) => write_facets(alloc, &facets, unit),
        Err(CutStop::TooMany) => Ok(TreeExport::PassedLimit(PassedLimit::Facets)),
        Err(CutStop::NoMemory) => Err(NoMemory),
    }
}

// A value that many can share.
fn share<T: Drop>(alloc: Global, value: T) -> Result<Arc<T>, NoMemory>
    ensures { IfOk result (λ r. arc_value r ≡ value) }
{
    Ok(Arc::new(alloc, value)?)
}

/// The distinct subtrees of a proper tree, in order of number, as nodes that many can share. Nothing has none.
pub fn nodes_of_tree(alloc: Global, tree: &CsgTree) -> Result<Arc<CsgStore>, NoMemory>
    requires { IsProper (plain_tree_of tree.now) }
    ensures { IfOk result (λ store. arc_value store ≡ nodes_of (plain_tree_of tree.now)) }
{
    share(alloc, CsgStore::intern(alloc, tree)?)
}

/// The solid of Nothing, which has no nodes.
pub fn solid_of_nothing(alloc: Global) -> Result<Arc<Solid>, NoMemory>
    ensures { IfOk result (λ s. tree_of (arc_value s) ≡ outside) }
{
    share(alloc, Solid::leaf(alloc, false))
}

/// The export of a tree as a text in units, from the solid of its last node or the first node that passes a limit of size.
///
/// `PassedLimit` tells the first limit that is passed: at the first node in order of number at which either is passed,
/// that the node's solid is above 50,000 in size, or else that the solids up to it are above 500,000 together; then
/// more than 20,000 facets, more than 200,000 corners, more than 60,000 vertices. Where none is passed it is the text.
pub fn export_made(
    alloc: Global,
    made: Result<Arc<Solid>, TreeStop>,
    unit: Unit,
) -> Result<TreeExport, NoMemory>
    ensures exported { (f : Tree) → IsSolidOutcome f made → IfOk result (IsExported unit f) }
    // A text is the boundary of the tree.
    ensures boundary { (f : Tree) → IsProper f → IsSolidOutcome f made →
        IfOk result (IsBoundaryText unit f) }
    // Without a solid there is no other export than a limit of size.
    ensures stopped { OnErr made
        (IfOk result
        (λ out. (passed : Limit) × IsSizeLimit passed × (out ≡ exported.PassedLimit passed))) }
{
    match made {
        Ok(solid) => cut_solid(alloc, &solid, unit),
        Err(TreeStop::TooBig(number)) => Ok(TreeExport::PassedLimit(PassedLimit::Solid(number))),
        Err(TreeStop::SumTooBig(number)) => Ok(TreeExport::PassedLimit(PassedLimit::Sum(number))),
        Err(TreeStop::NoMemory) => Err(NoMemory),
    }
}

// The solid of a tree, by way of its distinct subtrees.
fn solid_within(alloc: Global, tree: &CsgTree) -> Result<Arc<Solid>, TreeStop>
    requires { IsProper (plain_tree_of tree.now) }
    ensures solid { IfOk result (λ s. tree_of (arc_value s) ≡ solid_of (plain_tree_of tree.now)) }
    ensures within { OnOk result (AreWithinSizeLimits (nodes_of (plain_tree_of tree.now))) }
    ensures stop { IfErr result (IsTreeStop (nodes_of (plain_tree_of tree.now))) }
{
    let store = nodes_of_tree(alloc, tree)?;
    if store.len() == 0 {
        return Ok(solid_of_nothing(alloc)?);
    }
    let solid = tree_solid(alloc, &store, &mut PlainBuilder::new())?;
    Ok(share(alloc, solid)?)
}

/// The export of a proper tree, whose planes are in grid steps, without a memo: `export_made` of its solid.
pub fn export_tree(alloc: Global, tree: &CsgTree, unit: Unit) -> Result<TreeExport, NoMemory>
    requires { IsProper (plain_tree_of tree.now) }
    ensures exported { IfOk result (IsExported unit (plain_tree_of tree.now)) }
    ensures boundary { IfOk result (IsBoundaryText unit (plain_tree_of tree.now)) }
{
    let made = solid_within(alloc, tree);
    export_made(alloc, made, unit)
}
