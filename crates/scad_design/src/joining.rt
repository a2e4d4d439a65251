//! How designs are joined.

ghost use Rattle.std.specs.Prelude.{◌≡◌, ◌≤◌, ◌<◌, IfOk, OnOk, map, length, take, drop};
ghost use Rattle.std.specs.Vec.Iter.{into_iter_items};
ghost use Rattle.csg_tree.specs.declared.op.Op.{Op};
ghost use Rattle.csg_tree.specs.declared.op.Op.TheVariants.{Difference};
ghost use Rattle.scad_design.specs.Designs.{join, balanced_join, join_children};
ghost use Rattle.scad_design.specs.View.{plain_of};

use crate::design::Design;
use csg_tree::Op;
use std::alloc::Global;
use std::vec::IntoIter;
use text_place::NoMemory;

/// The join of two designs, without empty ones: in a union an empty one gives the other design, in an
/// intersection nothing, nothing minus anything is nothing, and a design minus nothing is the design.
/// At `NoMemory` both designs are dropped.
pub(crate) fn join(alloc: Global, op: Op, left: Design, right: Design) -> Result<Design, NoMemory>
    ensures { IfOk result (λ design. plain_of design ≡ join op (plain_of left) (plain_of right)) }
{
    match (op, left, right) {
        (Op::Union, Design::Empty, other) | (Op::Union, other, Design::Empty) => Ok(other),
        (Op::Intersection | Op::Difference, Design::Empty, _)
        | (Op::Intersection, _, Design::Empty) => Ok(Design::Empty),
        (Op::Difference, left, Design::Empty) => Ok(left),
        (op, left, right) => {
            let left = Box::new(alloc, left)?;
            let right = Box::new(alloc, right)?;
            Ok(Design::Joined(op, left, right))
        }
    }
}

/// Designs joined by halves: none gives the empty one, one gives itself, and more give the join of the
/// first half of them, rounded down, and the rest. At `NoMemory` all designs are dropped.
pub fn balanced_join(alloc: Global, op: Op, list: Vec<Design>) -> Result<Design, NoMemory>
    ensures { IfOk result (λ design. plain_of design ≡ balanced_join op (map plain_of list.items)) }
{
    let count = list.len();
    let mut designs = list.into_iter();
    join_next(alloc, op, &mut designs, count)
}

/// Children joined by an operation: by halves, or in a difference the first without the others, which
/// are joined by halves. At `NoMemory` all designs are dropped.
pub fn join_children(alloc: Global, op: Op, list: Vec<Design>) -> Result<Design, NoMemory>
    ensures { IfOk result (λ design. plain_of design ≡ join_children op (map plain_of list.items)) }
{
    match op {
        Op::Union => balanced_join(alloc, Op::Union, list),
        Op::Intersection => balanced_join(alloc, Op::Intersection, list),
        Op::Difference => without_others(alloc, list),
    }
}

// The first design without the union of the others.
fn without_others(alloc: Global, list: Vec<Design>) -> Result<Design, NoMemory>
    ensures { IfOk result (λ design. plain_of design
        ≡ join_children Difference (map plain_of list.items)) }
{
    let count = list.len();
    let mut designs = list.into_iter();
    match designs.next() {
        None => Ok(Design::Empty),
        Some(first) => {
            let others = join_next(alloc, Op::Union, &mut designs, count - 1)?;
            join(alloc, Op::Difference, first, others)
        }
    }
}

// The next designs joined by halves.
fn join_next(
    alloc: Global,
    op: Op,
    designs: &mut IntoIter<Design>,
    count: usize,
) -> Result<Design, NoMemory>
    requires { count ≤ length (into_iter_items designs.old) }
    ensures rest { OnOk result (into_iter_items designs.new
        ≡ drop count (into_iter_items designs.old)) }
    ensures joined { IfOk result (λ design. plain_of design ≡ balanced_join op
        (map plain_of (take count (into_iter_items designs.old)))) }
{
    if count < 2 {
        return Ok(next_or_empty(designs, count));
    }
    let half = count / 2;
    let first = join_next(alloc, op, designs, half)?;
    let rest = join_next(alloc, op, designs, count - half)?;
    join(alloc, op, first, rest)
}

// The next design where one is wanted, else the empty one.
fn next_or_empty(designs: &mut IntoIter<Design>, count: usize) -> Design
    requires one { count < 2 }
    requires within { count ≤ length (into_iter_items designs.old) }
    ensures rest { into_iter_items designs.new ≡ drop count (into_iter_items designs.old) }
    ensures next { (by : Op) →
        plain_of result ≡ balanced_join by (map plain_of
        (take count (into_iter_items designs.old))) }
{
    if count == 0 {
        return Design::Empty;
    }
    match designs.next() {
        Some(design) => design,
        None => Design::Empty,
    }
}
