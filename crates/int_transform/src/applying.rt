//! Steps applied to points.

ghost use Rattle.std.specs.Prelude.{◌≡◌, ◌<◌, pos, All, Any, length, map, IfOk, IfSome, OnOk, OnSome, IsNone};
ghost use Rattle.plane_predicate.specs.Space.{point_at};
ghost use Rattle.int_transform.specs.Maps.{coordinate_list, determinant_of, image, map_of, HasSafeCoordinates, LeavesSafeCoordinates, KeepsSafeCoordinates};

use crate::fault::StepFault;
use crate::step::Step;
use std::alloc::Global;

/// The images of points under the steps, of which the first is done first.
///
/// `TooLarge` comes exactly where a coordinate of a point after some step is past 2^53 - 1 in size.
pub fn apply(alloc: Global, steps: &[Step], points: &[[i64; 3]]) -> Result<Vec<[i64; 3]>, StepFault>
    requires { All (λ p. HasSafeCoordinates (point_at p)) points.now }
    ensures images { IfOk result (λ v. v.items
        ≡ map (λ p. coordinate_list (image (map_of steps.now) (point_at p))) points.now) }
    ensures in_range { OnOk result (All (λ p. KeepsSafeCoordinates steps.now (point_at p)) points.now) }
    // no step is singular, which a point shows
    ensures regular { OnOk result (0 < length points.now → determinant_of (map_of steps.now)
        ≡ pos 0 → ⊥) }
    ensures too_large { result ≡ Err StepFault.TooLarge →
        Any (λ p. LeavesSafeCoordinates steps.now (point_at p)) points.now }
{
    let mut images = Vec::new(alloc);
    for point in points {
        let image = image_under(steps, *point).ok_or(StepFault::TooLarge)?;
        images.push(image)?;
    }
    Ok(images)
}

// The image of one point. `None` exactly where it leaves the range of numbers after some step.
fn image_under(steps: &[Step], point: [i64; 3]) -> Option<[i64; 3]>
    requires { HasSafeCoordinates (point_at point) }
    ensures some { IfSome result (λ q. (q ≡ coordinate_list (image (map_of steps.now) (point_at point)))
        × KeepsSafeCoordinates steps.now (point_at point)) }
    ensures none { IsNone result → LeavesSafeCoordinates steps.now (point_at point) }
    ensures regular { OnSome result (determinant_of (map_of steps.now) ≡ pos 0 → ⊥) }
{
    let [x, y, z] = point;
    let mut at = [x, y, z];
    for step in steps {
        at = step.image(at)?;
    }
    Some(at)
}
