//! Tests that the blocks of a program are numbered in order, with the names that each assigns.

use crate::reading::{at, read};
use scad_scope::{BlockText, Blocks};
use std::process::Abort;
use std::test::Fail;

// Block 1 is function f's value, 2 module m's body, 3 the choice's body that is one instance, 4 that instance's.
const SOURCE: &[u8] =
    b"x=1;function f()=1;module m(a){y=1;$fn=2;}{x=2;z=3;}if(x)m();fn=4;$fn=5;$fn=6;";

fn stands(blocks: &Blocks<'_>, block: u32) -> &'static [u8] {
    if block as usize >= blocks.count() {
        return b"past";
    }
    match blocks.text(block) {
        BlockText::Nothing => b"nothing",
        BlockText::Statements(_) => b"statements",
        BlockText::Single(_) => b"single",
    }
}

fn numbers_blocks(rt: &impl Abort, blocks: &Blocks<'_>) {
    let cases: [(u32, &[u8], u32); 5] = [
        (0, b"statements", 5),
        (1, b"nothing", 2),
        (2, b"statements", 3),
        (3, b"single", 5),
        (4, b"nothing", 5),
    ];
    for (block, wanted, behind) in cases {
        assert_eq!(rt; stands(blocks, block), wanted);
        assert!(rt; (block as usize) < blocks.count());
        assert_eq!(rt; blocks.block_end(block), behind);
    }
    assert_eq!(rt; stands(blocks, 5), b"past".as_slice());
}

fn lists_each_assigned_name_once(rt: &impl Abort, blocks: &Blocks<'_>) {
    assert!(rt; blocks.count() == 5);
    let assigned = blocks.assignments(0);
    let cases: [(u32, bool, &[u8], u32); 4] = [
        (1, false, b"x", 46),
        (48, false, b"z", 50),
        (62, false, b"fn", 65),
        (67, true, b"fn", 77),
    ];
    assert!(rt; assigned.len() == 4);
    for (given, wanted) in assigned.iter().zip(cases) {
        assert_eq!(rt; (given.place, given.special), (at(wanted.0), wanted.1));
        assert_eq!(rt; given.name, wanted.2);
        assert_eq!(rt; given.value.place(), at(wanted.3));
    }
}

#[test]
fn lists_blocks_and_assignments(rt: HostRuntime) -> Result<(), Fail> {
    let program = read(rt.alloc(), SOURCE)?;
    let blocks = Blocks::of(rt.alloc(), &program)?;
    numbers_blocks(&rt, &blocks);
    lists_each_assigned_name_once(&rt, &blocks);
    Ok(())
}
