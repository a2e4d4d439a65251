//! A design: shapes with their steps, joined by operations, before they are placed.

ghost use Rattle.std.specs.Prelude.{◌≡◌, IfOk};
ghost use Rattle.scad_design.specs.Designs.{moved_design_tree};
ghost use Rattle.scad_design.specs.View.{plain_of};

use crate::leaf_shape::LeafShape;
use csg_tree::Op;
use int_transform::Step;
use std::alloc::Global;
use text_place::NoMemory;

/// Shapes with the steps that move them, joined, before they are placed.
#[derive(Drop)]
pub enum Design {
    Empty,
    Leaf(LeafShape),
    Joined(Op, Box<Design>, Box<Design>),
}

impl Design {
    /// An equal design, whose leaves share their shapes with those of this one.
    pub fn copy(&self, alloc: Global) -> Result<Design, NoMemory>
        ensures { IfOk result (λ design. plain_of design ≡ plain_of self.now) }
    {
        match self {
            Design::Empty => Ok(Design::Empty),
            Design::Leaf(part) => Ok(Design::Leaf(part.copy(alloc)?)),
            Design::Joined(op, left, right) => {
                let left = Box::new(alloc, left.copy(alloc)?)?;
                let right = Box::new(alloc, right.copy(alloc)?)?;
                Ok(Design::Joined(*op, left, right))
            }
        }
    }

    /// The design with more steps behind those of each leaf. At `NoMemory` it is dropped.
    pub fn moved_by(self, alloc: Global, steps: &[Step]) -> Result<Design, NoMemory>
        ensures { IfOk result (λ design. plain_of design ≡ moved_design_tree steps.now (plain_of self)) }
    {
        match self {
            Design::Empty => Ok(Design::Empty),
            Design::Leaf(part) => Ok(Design::Leaf(part.moved_by(steps)?)),
            Design::Joined(op, left, right) => {
                let left = Box::into_inner(left).moved_by(alloc, steps)?;
                let right = Box::into_inner(right).moved_by(alloc, steps)?;
                Ok(Design::Joined(op, Box::new(alloc, left)?, Box::new(alloc, right)?))
            }
        }
    }
}
