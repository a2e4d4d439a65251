//! Laws of cells, for the crates above. They are proved, and do nothing when they run.

ghost use Rattle.std.specs.Prelude.{◌≡◌, ◌↔◌, ◌∷◌, List};
ghost use Rattle.plane_predicate.specs.Space.{Coefficients, Coordinates, opposite_of, IsInWorld, IsInClosedWorld};
ghost use Rattle.plane_polygon.specs.Polygons.{Outline};
ghost use Rattle.plane_polygon.specs.Parts.{class_of, part_ahead, part_behind};
ghost use Rattle.plane_polygon.specs.declared.classes.Class.TheVariants.{Ahead, Across, Behind};
ghost use Rattle.bsp_tree.specs.Cells.{world_box, IsPolygonOfCell, IsInCell, IsInClosedCell};

/// The world box is the cell of its six planes: its points are those strictly inside it, and those
/// of the closed cell the points of the closed box.
pub fn world_box_is_a_cell()
    ensures points { (p : Coordinates) → IsInCell world_box p ↔ IsInWorld p }
    ensures closed { (p : Coordinates) → IsInClosedCell world_box p ↔ IsInClosedWorld p }
{}

/// Where a plane is across a polygon of a cell, the parts are polygons of the halves of the cell.
/// A polygon that lies to one side of the plane is a polygon of the half on its side.
pub fn parts_are_of_halves()
    ensures part_behind { (cell : List Coefficients) (s : Outline) (m : Coefficients) →
        IsPolygonOfCell cell s → class_of s m ≡ Across →
        IsPolygonOfCell (m ∷ cell) (part_behind s m) }
    ensures part_ahead { (cell : List Coefficients) (s : Outline) (m : Coefficients) →
        IsPolygonOfCell cell s → class_of s m ≡ Across →
        IsPolygonOfCell (opposite_of m ∷ cell) (part_ahead s m) }
    ensures behind { (cell : List Coefficients) (s : Outline) (m : Coefficients) →
        IsPolygonOfCell cell s →
        class_of s m ≡ Behind → IsPolygonOfCell (m ∷ cell) s }
    ensures ahead { (cell : List Coefficients) (s : Outline) (m : Coefficients) →
        IsPolygonOfCell cell s →
        class_of s m ≡ Ahead → IsPolygonOfCell (opposite_of m ∷ cell) s }
{}
