//! One shape of a design with the steps that move it; copies share the shape.

ghost use Rattle.std.specs.Prelude.{◌≡◌, ◌++◌, [], IfOk};

use int_transform::Step;
use primitives::Shape;
use std::alloc::Global;
use std::marker::Model;
use std::sync::Arc;
use text_place::{NoMemory, Place};

/// A shape in grid steps, the steps that move it, of which the first is done first, and the place of
/// its module's name. Copies share the shape.
#[derive(Drop)]
pub struct LeafShape {
    shape: Arc<Shape>,
    steps: Vec<Step>,
    at: Place,
}

impl Model for LeafShape {
    ghost use Rattle.std.specs.Arc.{arc_value};
    ghost use Rattle.scad_design.specs.Designs.{MovedShape};

    ghost Value = { MovedShape };

    ghost view = { λ p. record { mesh = arc_value p.shape; steps = p.steps.items; at = p.at } };
}

impl LeafShape {
    /// A shape where it is, without steps.
    pub fn of(alloc: Global, shape: Shape, at: Place) -> Result<LeafShape, NoMemory>
        ensures { IfOk result (λ part. part ≡ record { mesh = shape; steps = []; at = at }) }
    {
        Ok(LeafShape {
            shape: Arc::new(alloc, shape)?,
            steps: Vec::new(alloc),
            at,
        })
    }

    /// An equal part, with the same shape.
    pub(crate) fn copy(&self, alloc: Global) -> Result<LeafShape, NoMemory>
        ensures { IfOk result (λ part. part ≡ self.now) }
    {
        Ok(LeafShape {
            shape: Arc::try_clone(&self.shape)?,
            steps: Vec::from_slice(alloc, &self.steps)?,
            at: self.at,
        })
    }

    /// The shape before its steps.
    pub fn shape(&self) -> &Shape
        ensures { result.now ≡ self.now.mesh }
    {
        &self.shape
    }

    /// The steps, of which the first is done first.
    pub fn steps(&self) -> &[Step]
        ensures { result.now ≡ self.now.steps }
    {
        &self.steps
    }

    /// The place of the module's name.
    pub(crate) fn place(&self) -> Place
        ensures { result ≡ self.now.at }
    {
        self.at
    }

    /// The part with more steps behind its own.
    pub(crate) fn moved_by(self, more: &[Step]) -> Result<LeafShape, NoMemory>
        ensures { IfOk result (λ part. part
            ≡ record { mesh = self.mesh; steps = self.steps ++ more.now; at = self.at }) }
    {
        let mut steps = self.steps;
        steps.extend_from_slice(more)?;
        Ok(LeafShape {
            shape: self.shape,
            steps,
            at: self.at,
        })
    }
}
