//! Designs that instances give, one after another.

ghost use Rattle.std.specs.Prelude.{◌≡◌, ℕ, option_map, IfOk};
ghost use Rattle.scad_design.specs.View.{plain_of};
ghost use Rattle.scad_meaning.specs.Meaning.{first_root, no_design, joined_members, no_members, as_root};
ghost use Rattle.scad_instance_rules.specs.Seen.{instance_design_of, member_designs_of, one_member_of, IsLengthened};

use crate::position::{InstanceResult, MemberResults};
use csg_tree::Op;
use scad_design::{Design, join_children};
use std::alloc::Global;
use text_place::{NoMemory, Stop};

/// What an instance without a design gives.
pub fn nothing_made() -> InstanceResult
    ensures { (leaves : ℕ) → instance_design_of leaves result ≡ no_design leaves }
{
    InstanceResult {
        design: Design::Empty,
        root: None,
    }
}

/// What no instances give.
pub fn no_members(alloc: Global) -> MemberResults
    ensures { (leaves : ℕ) → member_designs_of leaves result ≡ no_members leaves }
{
    MemberResults {
        designs: Vec::new(alloc),
        root: None,
    }
}

// The first of two designs that are marked.
fn first_root(earlier: Option<Design>, later: Option<Design>) -> Option<Design>
    ensures { option_map plain_of result ≡ first_root (option_map plain_of earlier)
        (option_map plain_of later) }
{
    match earlier {
        Some(design) => Some(design),
        None => later,
    }
}

/// What an instance that is marked `!` gives: its design is the root, and a member of what stands around it as well.
pub fn as_root(alloc: Global, made: InstanceResult) -> Result<InstanceResult, NoMemory>
    ensures { IfOk result (λ root. (leaves : ℕ) → instance_design_of leaves root
        ≡ as_root (instance_design_of leaves made)) }
{
    let root = made.design.copy(alloc)?;
    Ok(InstanceResult {
        design: made.design,
        root: Some(root),
    })
}

/// Members joined by an operation.
pub fn join_members(
    alloc: Global,
    op: Op,
    members: MemberResults,
) -> Result<InstanceResult, NoMemory>
    ensures { IfOk result (λ made. (leaves : ℕ) → instance_design_of leaves made
        ≡ joined_members op (member_designs_of leaves members)) }
{
    let MemberResults { designs, root } = members;
    let design = join_children(alloc, op, designs)?;
    Ok(InstanceResult { design, root })
}

/// Members with what one more instance gives. Where it is no member, its design is dropped.
pub fn with_made(
    members: MemberResults,
    is_member: bool,
    next: Result<InstanceResult, Stop>,
) -> Result<MemberResults, Stop>
    ensures { IsLengthened (one_member_of is_member) members next result }
{
    let InstanceResult { design, root } = next?;
    let mut designs = members.designs;
    if is_member && designs.push(design).is_err() {
        return Err(Stop::NoMemory);
    }
    Ok(MemberResults {
        designs,
        root: first_root(members.root, root),
    })
}

/// Members with those behind them.
pub fn with_members(
    members: MemberResults,
    next: Result<MemberResults, Stop>,
) -> Result<MemberResults, Stop>
    ensures { IsLengthened member_designs_of members next result }
{
    let mut later = next?;
    let mut designs = members.designs;
    if designs.append(&mut later.designs).is_err() {
        return Err(Stop::NoMemory);
    }
    Ok(MemberResults {
        designs,
        root: first_root(members.root, later.root),
    })
}
