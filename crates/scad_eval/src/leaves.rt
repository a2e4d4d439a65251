//! Shapes, as the leaves of designs.

ghost use Rattle.scad_modules.specs.Bounds.{IsSafeSolid, IsSafeFlat};
ghost use Rattle.scad_modules.specs.View.{solid_call_of, flat_call_of};
ghost use Rattle.scad_design.specs.View.{plain_of};
ghost use Rattle.scad_meaning.specs.Verdicts.{solid_mesh, extrusion_mesh};
ghost use Rattle.scad_meaning.specs.Meaning.{unless_refused, leaf_design, flat_design, hull_design};
ghost use Rattle.scad_instance_rules.specs.Seen.{instance_design_of, IsStopAt};
ghost use Rattle.scad_eval.specs.Keeping.{IsCheckedExtrusion, IsPosition, Stays, EvaluatesKeeping, EvaluatesAnywhere};

use crate::evaluator::InstanceEvaluator;
use primitives::{Shape, ShapeStop, extrude};
use scad_design::{Design, LeafShape};
use scad_instance_rules::{
    InstanceResult, Position, design_hull, flat_shape, is_nothing, solid_shape,
};
use scad_meaning::Extrusion;
use scad_modules::{FlatShape, SolidShape};
use text_place::{FaultKind, Place, Stop};

// The most leaves of one design.
const LEAVES: u32 = 1024;

impl InstanceEvaluator<'_, '_> {
    /// A solid, as one leaf more.
    pub(crate) fn solid(&mut self, place: Place, shape: &SolidShape) -> Result<InstanceResult, Stop>
        requires { IsSafeSolid (solid_call_of shape.now) }
        ensures { EvaluatesAnywhere instance_design_of self.old self.new result
            (λ evaluator here turns leaves.
            unless_refused (evaluator.judge.solid evaluator.unit (solid_call_of shape.now)) place
            (leaf_design place (solid_mesh evaluator.unit
            (solid_call_of shape.now)) turns leaves)) }
    {
        match solid_shape(self.evaluation.alloc, self.unit, shape) {
            Ok(shape) => self.leaf(place, shape),
            Err(stop) => Err(stop_at(stop, place)),
        }
    }

    /// A shape in the plane, which stands inside an extrusion, as one leaf more.
    pub(crate) fn flat(
        &mut self,
        position: Position<'_, '_>,
        place: Place,
        shape: &FlatShape,
    ) -> Result<InstanceResult, Stop>
        requires position { IsPosition self.old position }
        requires safe { IsSafeFlat (flat_call_of shape.now) }
        ensures { EvaluatesKeeping instance_design_of self.old self.new position.entry result
            (Stays self.old self.new)
            (λ evaluator here. flat_design evaluator here.inside place (flat_call_of shape.now)) }
    {
        match position.inside {
            None => Err(FaultKind::WrongDimension.at(place)),
            Some(through) => self.flat_through(place, through, shape),
        }
    }

    // A shape in the plane that is moved through a height, as one leaf more.
    fn flat_through(
        &mut self,
        place: Place,
        through: Extrusion,
        shape: &FlatShape,
    ) -> Result<InstanceResult, Stop>
        requires through { IsCheckedExtrusion self.old.unit through }
        requires safe { IsSafeFlat (flat_call_of shape.now) }
        ensures { EvaluatesAnywhere instance_design_of self.old self.new result
            (λ evaluator here turns leaves.
            unless_refused (evaluator.judge.flat evaluator.unit (flat_call_of shape.now)) place
            (leaf_design place (extrusion_mesh evaluator.unit through (flat_call_of shape.now))
            turns leaves)) }
    {
        let alloc = self.evaluation.alloc;
        match flat_shape(alloc, self.unit, shape) {
            Ok(flat) => match extrude(alloc, &flat, through.height, through.center, self.unit) {
                Ok(shape) => self.leaf(place, shape),
                Err(stop) => Err(stop_at(stop, place)),
            },
            Err(stop) => Err(stop_at(stop, place)),
        }
    }

    /// The hull of what children give, as one leaf more in place of their design. Where that is
    /// nothing, it stays so.
    pub(crate) fn hull(
        &mut self,
        place: Place,
        made: InstanceResult,
    ) -> Result<InstanceResult, Stop>
        ensures { EvaluatesAnywhere instance_design_of self.old self.new result
            (λ evaluator here turns leaves.
            hull_design (evaluator.judge.hull (plain_of made.design)) place
            (instance_design_of leaves made) turns) }
    {
        let InstanceResult { design, root } = made;
        if is_nothing(&design) {
            return Ok(InstanceResult { design, root });
        }
        match design_hull(self.evaluation.alloc, &design) {
            Ok(shape) => {
                let leaf = self.leaf(place, shape)?;
                Ok(InstanceResult {
                    design: leaf.design,
                    root,
                })
            }
            Err(stop) => Err(stop_at(stop, place)),
        }
    }

    // One leaf more. TooManyParts where it is the 1,025th.
    fn leaf(&mut self, place: Place, shape: Shape) -> Result<InstanceResult, Stop>
        ensures { EvaluatesAnywhere instance_design_of self.old self.new result
            (λ evaluator here turns leaves. leaf_design place shape turns leaves) }
    {
        if self.leaves == LEAVES {
            return Err(FaultKind::TooManyParts.at(place));
        }
        self.leaves += 1;
        Ok(InstanceResult {
            design: Design::Leaf(LeafShape::of(self.evaluation.alloc, shape, place)?),
            root: None,
        })
    }
}

// A stop of a shape at the place of its module's name.
fn stop_at(stop: ShapeStop, place: Place) -> Stop
    ensures { IsStopAt stop place result }
{
    match stop {
        ShapeStop::Kind(kind) => kind.at(place),
        ShapeStop::NoMemory => Stop::NoMemory,
    }
}
