//! Laws of exports, for the crates above. They are proved, and do nothing when they run.

ghost use Rattle.std.specs.Prelude.{◌≡◌, ◌<◌, ◌≤◌, ◌↔◌, ℕ, List, length};
ghost use Rattle.plane_predicate.specs.declared.unit.Unit.{Unit as LengthUnit};
ghost use Rattle.plane_predicate.specs.declared.unit.Unit.TheVariants.{Whole};
ghost use Rattle.plane_predicate.specs.Space.{Coefficients};
ghost use Rattle.csg_tree.specs.HalfSpaceTrees.{Tree, nothing, leaf};
ghost use Rattle.csg_tree.specs.Numberings.{nodes_of, tree_numbered};
ghost use Rattle.csg_tree.specs.ProperTrees.{IsProper};
ghost use Rattle.bsp_tree.specs.Trees.{outside};
ghost use Rattle.bsp_boolean.specs.Solids.{solid_of};
ghost use Rattle.bsp_boolean.specs.TreeSolids.{AreWithinSizeLimits};
ghost use Rattle.tree_export.specs.declared.export.TreeExport.{TreeExport};
ghost use Rattle.tree_export.specs.declared.export.TreeExport.TheVariants as exported;
ghost use Rattle.tree_export.specs.Exports.{empty_text, IsBoundaryText, IsTextExport, IsExported, PassesNoLimit};
ghost use Rattle.tree_export.specs.Worked.{worked_box, worked_box_text};

use bsp_boolean::{one_tree_more, solids_are_their_trees};
use facet_cut::facets_are_polygons;
use off_text::{some_corners, texts_are_boundaries, texts_print_polygons};

/// In each unit a tree has one export.
pub fn one_export()
    ensures { (unit : LengthUnit) (tree : Tree) (out other : TreeExport) →
        IsExported unit tree out → IsExported unit tree other → out ≡ other }
{}

/// In each unit each proper tree has an export, and a text is the boundary of the tree.
pub fn some_export()
    ensures { (unit : LengthUnit) (tree : Tree) → IsProper tree → (out : TreeExport) ×
        IsExported unit tree out × IsBoundaryText unit tree out }
{
    // Each call is for its law, and does nothing when it runs.
    one_tree_more();
    solids_are_their_trees();
    facets_are_polygons();
    some_corners();
    texts_print_polygons();
    texts_are_boundaries();
}

/// A tree's export is a text exactly where no limit is passed.
pub fn texts_pass_no_limit()
    ensures { (unit : LengthUnit) (tree : Tree) (out : TreeExport) → IsExported unit tree out →
        IsTextExport out ↔ PassesNoLimit unit tree }
{}

/// The export of Nothing is the 4OFF text without vertices and faces.
pub fn nothing_has_the_empty_text()
    ensures { (unit : LengthUnit) (out : TreeExport) → IsExported unit nothing out ↔
        (out ≡ exported.Text empty_text) }
{}

/// A leaf of at most eight planes passes no limit.
pub fn small_leaves_are_texts()
    ensures { (unit : LengthUnit) (planes : List Coefficients) (out : TreeExport) →
        length planes ≤ 8 → IsExported unit (leaf planes) out → IsTextExport out }
{}

/// A tree's last node is the tree, and so has its solid; a tree without nodes has the empty solid.
pub fn last_nodes_are_trees()
    ensures same { (tree : Tree) → 0 < length (nodes_of tree) →
        tree_numbered (nodes_of tree) (length (nodes_of tree)) ≡ tree }
    ensures last { (tree : Tree) → 0 < length (nodes_of tree) →
        solid_of (tree_numbered (nodes_of tree) (length (nodes_of tree))) ≡ solid_of tree }
    ensures none { (tree : Tree) → length (nodes_of tree) ≡ 0 → outside ≡ solid_of tree }
    ensures within { (tree : Tree) → length (nodes_of tree) ≡ 0 →
        AreWithinSizeLimits (nodes_of tree) }
{}

/// A worked export: the box from (0, 0, 0) to (1, 2, 3) has the text of its 8 vertices and 6 faces.
pub fn a_box_has_its_text()
    ensures { IsExported Whole worked_box (exported.Text worked_box_text) }
{}
