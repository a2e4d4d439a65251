//! Laws of crossings. They are proved, and do nothing when they run.

ghost use Rattle.std.specs.Prelude.{◌≡◌, ℤ, pos, List};
ghost use Rattle.std.specs.List.{All};
ghost use Rattle.closed_faces.specs.Crossings.{
  crossings_with_faces,
  edges_of_face,
  HavePairedEdges,
  Face,
  IsConvexFace,
  ArePolygonsInGeneralPosition,
};
ghost use Rattle.closed_faces.specs.Worked.{worked_triangle, worked_square};
ghost use Rattle.plane_predicate.specs.Sums.{sum_over};

/// Convex faces in which each directed edge stands as often as its reverse have a winding number:
/// the crossings along the border of a triangle, or of any convex polygon, in general position sum
/// to 0.
pub fn closed_faces_have_a_winding_number()
    ensures { (faces : List Face) (polygon : Face) →
        All IsConvexFace faces → HavePairedEdges faces → IsConvexFace polygon →
        All (ArePolygonsInGeneralPosition polygon) faces →
        sum_over (crossings_with_faces faces) (edges_of_face polygon) ≡ pos 0 }
{}

/// Worked polygons in general position: the triangle with the corners (1, 2, 1), (7, 3, 2) and
/// (2, 9, 3), and the square with the corners (4, 0, 0), (4, 4, 0), (4, 4, 4) and (4, 0, 4). A
/// polygon is in no such position with itself.
pub fn a_triangle_and_a_square_in_general_position()
    ensures two { ArePolygonsInGeneralPosition worked_triangle worked_square }
    ensures one { ArePolygonsInGeneralPosition worked_triangle worked_triangle → ⊥ }
{}
