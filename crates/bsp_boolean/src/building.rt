//! Builders: merges that are counted.

ghost use Rattle.std.specs.Prelude.{◌≡◌, ℕ, ◌+◌, ◌^◌, ◌<◌, IfOk};
ghost use Rattle.bsp_tree.specs.Shapes.{tree_of};
ghost use Rattle.bsp_boolean.specs.Merges.{merge_of, IsOperationOn};
ghost use Rattle.bsp_boolean.specs.LeafSolids.{IsBuilt};

use crate::BuildStop;
use crate::merging::merge_within;
use bsp_tree::Solid;
use csg_tree::Op;
use std::alloc::Global;
use std::marker::Model;

/// What merges solids, and counts how often it was called.
pub trait Builder {
    /// How often it was called.
    ghost builds: { Self → ℕ };

    /// The merge of two solids of one cell, where its size is at most `most`; `TooBig` comes exactly
    /// where it is above. The count rises by one, whatever the answer.
    fn build(
        &mut self,
        alloc: Global,
        op: Op,
        left: &Solid,
        right: &Solid,
        most: u64,
    ) -> Result<Solid, BuildStop>
        requires { builds self.old < 2 ^ 48 }
        ensures counted { builds self.new ≡ builds self.old + 1 }
        ensures built { IsBuilt (merge_of op (tree_of left.now) (tree_of right.now)) most result }
        ensures operation { IfOk result
            (λ s. IsOperationOn op (tree_of left.now) (tree_of right.now) (tree_of s)) };
}

/// A builder that only counts, which contracts see as its count.
#[derive(Drop)]
pub struct PlainBuilder {
    count: u64,
}

impl Model for PlainBuilder {
    ghost use Rattle.std.specs.Prelude.{ℕ};

    ghost Value = { ℕ };

    ghost view = { λ b. b.count };
}

impl PlainBuilder {
    /// A builder with the count 0.
    pub fn new() -> PlainBuilder
        ensures { result ≡ 0 }
    {
        PlainBuilder { count: 0 }
    }
}

impl Builder for PlainBuilder {
    ghost builds = { λ b. b };

    fn build(
        &mut self,
        alloc: Global,
        op: Op,
        left: &Solid,
        right: &Solid,
        most: u64,
    ) -> Result<Solid, BuildStop> {
        self.count += 1;
        merge_within(alloc, op, left, right, most)
    }
}
