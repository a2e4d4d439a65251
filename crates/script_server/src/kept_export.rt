//! The text of a client's last export, which is given again where the next one is of the same tree.

ghost use Rattle.std.specs.Prelude.{◌≡◌, Ok, IfOk, IfSome, OnErr};
ghost use Rattle.csg_tree.specs.ProperTrees.{IsProper};
ghost use Rattle.export_limits.specs.declared.passed.PassedLimit.{PassedLimit as Limit};
ghost use Rattle.export_limits.specs.Limits.{IsSizeLimit};
ghost use Rattle.tree_export.specs.declared.export.TreeExport.TheVariants as exported;
ghost use Rattle.tree_export.specs.Exports.{IsExported, IsBoundaryText, IsSolidOutcome};

use bsp_tree::Solid;
use csg_tree::TreeKey;
use parallel_eval::EvalStop;
use plane_predicate::Unit;
use std::alloc::Global;
use std::marker::Model;
use std::sync::Arc;
use text_place::{Bytes, NoMemory};
use tree_export::{TreeExport, export_made};

// The most bytes that the text of an export which is kept may have: 4 MiB. So long is one of 60,000 vertices, each in a line
// of 48 bytes, and 200,000 corners; most have far fewer.
const MOST_KEPT: usize = 4 << 20;

/// The text that the export of a tree in a unit gave, of at most 4 MiB, which contracts see as the tree.
#[derive(Drop)]
pub struct KeptExport {
    key: TreeKey,
    unit: Unit,
    text: Bytes,
}

impl Model for KeptExport {
    ghost use Rattle.csg_tree.specs.HalfSpaceTrees.{Tree};
    ghost use Rattle.csg_tree.specs.Codes.{coded_tree};

    ghost Value = { Tree };

    ghost coded = { coded_tree };

    ghost use Rattle.std.specs.Prelude.{◌≤◌, length};
    ghost use Rattle.tree_export.specs.declared.export.TreeExport.TheVariants as exported;
    ghost use Rattle.tree_export.specs.Exports.{IsExported, IsBoundaryText};

    ghost view = { λ k. k.key };

    ghost invariant = { λ k. IsExported k.unit k.key (exported.Text k.text)
        × IsBoundaryText k.unit k.key (exported.Text k.text) × (length k.text ≤ 4194304) };
}

impl KeptExport {
    // Keeps what the export of a tree gave, where that is a text that isn't too long and there is memory for a copy.
    fn of(alloc: Global, unit: Unit, key: TreeKey, given: &TreeExport) -> Option<KeptExport>
        requires exported { IsExported unit key given.now }
        requires boundary { IsBoundaryText unit key given.now }
        ensures { IfSome result (λ kept. kept ≡ key) }
    {
        match given {
            TreeExport::Text(text) if text.items().len() <= MOST_KEPT => {
                let text = Bytes::copy_of(alloc, text.items()).ok()?;
                Some(KeptExport { key, unit, text })
            }
            _ => None,
        }
    }

    // What was kept, where it is the export of this tree in this unit.
    fn given_for(self, unit: Unit, key: &TreeKey) -> Option<TreeExport>
        ensures exported { IfSome result (IsExported unit key.now) }
        ensures boundary { IfSome result (IsBoundaryText unit key.now) }
    {
        if self.unit == unit && self.key.is_same(key) {
            let KeptExport { text, .. } = self;
            Some(TreeExport::Text(text))
        } else {
            None
        }
    }
}

// The export of a tree from its solid, or what was kept where that is it.
fn given_or_cut(
    alloc: Global,
    last: Option<KeptExport>,
    unit: Unit,
    key: &TreeKey,
    solid: Arc<Solid>,
) -> Result<TreeExport, NoMemory>
    requires proper { IsProper key.now }
    requires made { IsSolidOutcome key.now (Ok solid) }
    ensures exported { IfOk result (IsExported unit key.now) }
    ensures boundary { IfOk result (IsBoundaryText unit key.now) }
{
    if let Some(last) = last {
        if let Some(given) = last.given_for(unit, key) {
            return Ok(given);
        }
    }
    export_made(alloc, Ok(solid), unit)
}

// The same from the solid that was made or the first node that passed a limit of size.
fn given_or_made(
    alloc: Global,
    last: Option<KeptExport>,
    unit: Unit,
    key: &TreeKey,
    made: Result<Arc<Solid>, EvalStop>,
) -> Result<TreeExport, NoMemory>
    requires proper { IsProper key.now }
    requires made { IsSolidOutcome key.now made }
    ensures exported { IfOk result (IsExported unit key.now) }
    ensures boundary { IfOk result (IsBoundaryText unit key.now) }
    ensures stopped { OnErr made (IfOk result (λ out.
        (passed : Limit) × IsSizeLimit passed × (out ≡ exported.PassedLimit passed))) }
{
    match made {
        Ok(solid) => given_or_cut(alloc, last, unit, key, solid),
        Err(stop) => export_made(alloc, Err(stop), unit),
    }
}

/// The export of a tree from the solid that was made of it or the first node that passed a limit of size, as `export_made`
/// gives it. Where the same was kept, its facets and its text aren't made anew. Afterwards it is kept itself, where it is a
/// text of at most 4 MiB and there is memory for a copy.
pub fn export_kept(
    alloc: Global,
    kept: &mut Option<KeptExport>,
    unit: Unit,
    key: TreeKey,
    made: Result<Arc<Solid>, EvalStop>,
) -> Result<TreeExport, NoMemory>
    requires proper { IsProper key }
    requires made { IsSolidOutcome key made }
    ensures exported { IfOk result (IsExported unit key) }
    ensures boundary { IfOk result (IsBoundaryText unit key) }
    ensures stopped { OnErr made (IfOk result (λ out.
        (passed : Limit) × IsSizeLimit passed × (out ≡ exported.PassedLimit passed))) }
{
    let last = kept.take();
    let given = given_or_made(alloc, last, unit, &key, made)?;
    *kept = KeptExport::of(alloc, unit, key, &given);
    Ok(given)
}
