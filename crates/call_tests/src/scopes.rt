//! Tests that functions and modules are found from the inner scope outward.

ghost use Rattle.std.specs.Prelude.{◌<◌, length};
ghost use Rattle.scad_scope.specs.Table.{rows_of};

use crate::reading::{at, read};
use scad_scope::{Blocks, Found, ModuleActivation, Scopes};
use scad_value::Value;
use std::alloc::Global;
use std::process::Abort;
use std::test::Fail;
use text_place::{Fault, FaultKind, NoMemory};

// Functions e and f, module m with functions g and f, a bare block with function h, a choice with functions k and l in its
// branches, and function f.
const SOURCE: &[u8] =
    b"function e()=1;function f()=1;module m(){function g()=1;function f()=1;}{function h()=1;}if(true){function k()=1;}else m(){function l()=1;}function f()=1;";

fn is_there(rt: &impl Abort, scopes: &Scopes, scope: u32)
    ensures { scope < length (rows_of scopes.now) }
{
    assert!(rt; (scope as usize) < scopes.count());
}

fn enter(
    rt: &impl Abort,
    alloc: Global,
    scopes: &mut Scopes,
    blocks: &Blocks<'_>,
    outer: u32,
    block: u32,
) -> Result<u32, NoMemory> {
    is_there(rt, scopes, outer);
    scopes.enter(alloc, outer, blocks, block)
}

fn enter_empty(
    rt: &impl Abort,
    alloc: Global,
    scopes: &mut Scopes,
    outer: u32,
) -> Result<u32, NoMemory> {
    is_there(rt, scopes, outer);
    scopes.enter_empty(alloc, outer)
}

// Scope 1 is the program. In it are 2, module m's body; 3, the first branch; 5, the children of the second one; 6, the value of
// function e; and 7, without definitions. Scope 4 is without definitions in module m's body.
fn enter_all(
    rt: &impl Abort,
    alloc: Global,
    scopes: &mut Scopes,
    blocks: &Blocks<'_>,
) -> Result<(), NoMemory> {
    assert!(rt; enter(rt, alloc, scopes, blocks, 0, 0)? == 1);
    assert!(rt; enter(rt, alloc, scopes, blocks, 1, 3)? == 2);
    assert!(rt; enter(rt, alloc, scopes, blocks, 1, 7)? == 3);
    assert!(rt; enter_empty(rt, alloc, scopes, 2)? == 4);
    assert!(rt; enter(rt, alloc, scopes, blocks, 1, 10)? == 5);
    assert!(rt; enter(rt, alloc, scopes, blocks, 1, 1)? == 6);
    assert!(rt; enter_empty(rt, alloc, scopes, 1)? == 7);
    Ok(())
}

fn function(rt: &impl Abort, scopes: &Scopes, scope: u32, name: &[u8]) -> Result<Found, Fault> {
    is_there(rt, scopes, scope);
    scopes.function(scope, name, at(5))
}

fn module(rt: &impl Abort, scopes: &Scopes, scope: u32) -> Result<Found, Fault> {
    is_there(rt, scopes, scope);
    scopes.module(scope, b"m", at(5))
}

fn found(scope: u32, definition: u32) -> Result<Found, Fault> {
    Ok(Found { scope, definition })
}

fn unknown(kind: FaultKind) -> Result<Found, Fault> {
    Err(Fault { kind, place: at(5) })
}

// Functions and modules are numbered each in the order of the text.
fn finds_definitions_by_their_numbers(rt: &impl Abort, scopes: &Scopes) {
    let no_function = unknown(FaultKind::UnknownFunction);
    let cases: [(u32, &[u8], Result<Found, Fault>); 17] = [
        (0, b"f", no_function),
        (1, b"e", found(1, 0)),
        (1, b"f", found(1, 7)),
        (1, b"g", no_function),
        (1, b"h", found(1, 4)),
        (1, b"k", no_function),
        (2, b"f", found(2, 3)),
        (2, b"g", found(2, 2)),
        (2, b"h", found(1, 4)),
        (3, b"k", found(3, 5)),
        (3, b"l", no_function),
        (4, b"f", found(2, 3)),
        (4, b"m", no_function),
        (5, b"l", found(5, 6)),
        (5, b"f", found(1, 7)),
        (6, b"f", found(1, 7)),
        (7, b"f", found(1, 7)),
    ];
    for (scope, name, wanted) in cases {
        assert!(rt; function(rt, scopes, scope, name) == wanted);
    }
    assert!(rt; module(rt, scopes, 2) == found(1, 0));
    assert!(rt; module(rt, scopes, 4) == found(1, 0));
    assert!(rt; module(rt, scopes, 0) == unknown(FaultKind::UnknownModule));
}

fn bind(
    rt: &impl Abort,
    alloc: Global,
    scopes: &mut Scopes,
    scope: u32,
    n: i64,
) -> Result<(), NoMemory> {
    is_there(rt, scopes, scope);
    let value = Value::Number(n);
    assert!(rt; value.is_bounded());
    scopes.bind(alloc, scope, b"x", value)
}

fn has(rt: &impl Abort, scopes: &Scopes, scope: u32, wanted: i64) -> bool {
    is_there(rt, scopes, scope);
    match scopes.variable(scope, b"x", at(3)) {
        Ok(Value::Number(n)) => *n == wanted,
        _ => false,
    }
}

fn finds_the_newest_value_outward(
    rt: &impl Abort,
    alloc: Global,
    scopes: &mut Scopes,
) -> Result<(), NoMemory> {
    bind(rt, alloc, scopes, 1, 5)?;
    bind(rt, alloc, scopes, 7, 7)?;
    for (scope, x) in [(1, 5), (2, 5), (4, 5), (6, 5), (7, 7)] {
        assert!(rt; has(rt, scopes, scope, x));
    }
    bind(rt, alloc, scopes, 2, 8)?;
    bind(rt, alloc, scopes, 1, 6)?;
    for (scope, x) in [(1, 6), (2, 8), (4, 8), (6, 6), (7, 7)] {
        assert!(rt; has(rt, scopes, scope, x));
    }
    is_there(rt, scopes, 2);
    let missing = scopes.variable(2, b"y", at(3)).err();
    let wanted = Fault {
        kind: FaultKind::UnknownName,
        place: at(3),
    };
    assert_eq!(rt; missing, Some(wanted));
    Ok(())
}

fn call(
    rt: &impl Abort,
    alloc: Global,
    scopes: &mut Scopes,
    blocks: &Blocks<'_>,
    call: ModuleActivation,
) -> Result<u32, NoMemory> {
    is_there(rt, scopes, call.caller);
    scopes.enter_activation(alloc, call.caller, blocks, 3, call)
}

// Scope 8 is module m's body for a call in scope 1, whose children are block 7; scope 9 stands inside, and scope 10
// inside that is m's body again, for a call in scope 9.
fn tells_the_innermost_call(
    rt: &impl Abort,
    alloc: Global,
    scopes: &mut Scopes,
    blocks: &Blocks<'_>,
) -> Result<(), NoMemory> {
    let outer = ModuleActivation {
        children: 7,
        caller: 1,
    };
    assert!(rt; call(rt, alloc, scopes, blocks, outer)? == 8);
    assert!(rt; enter_empty(rt, alloc, scopes, 8)? == 9);
    let inner = ModuleActivation {
        children: 8,
        caller: 9,
    };
    assert!(rt; call(rt, alloc, scopes, blocks, inner)? == 10);
    let cases = [
        (0, None),
        (2, None),
        (8, Some(outer)),
        (9, Some(outer)),
        (10, Some(inner)),
    ];
    for (scope, wanted) in cases {
        is_there(rt, scopes, scope);
        assert!(rt; scopes.activation_of(scope) == wanted);
    }
    assert!(rt; function(rt, scopes, 10, b"g") == found(10, 2));
    Ok(())
}

fn leaves_scopes(rt: &impl Abort, alloc: Global, scopes: &mut Scopes) -> Result<(), NoMemory> {
    is_there(rt, scopes, 2);
    scopes.leave(2);
    assert!(rt; scopes.count() == 2);
    assert!(rt; has(rt, scopes, 1, 6));
    assert!(rt; enter_empty(rt, alloc, scopes, 1)? == 2);
    Ok(())
}

fn does_all(
    rt: &impl Abort,
    alloc: Global,
    scopes: &mut Scopes,
    blocks: &Blocks<'_>,
) -> Result<(), NoMemory> {
    enter_all(rt, alloc, scopes, blocks)?;
    finds_definitions_by_their_numbers(rt, scopes);
    finds_the_newest_value_outward(rt, alloc, scopes)?;
    tells_the_innermost_call(rt, alloc, scopes, blocks)?;
    leaves_scopes(rt, alloc, scopes)
}

#[test]
fn enters_finds_and_leaves(rt: HostRuntime) -> Result<(), Fail> {
    let alloc = rt.alloc();
    let program = read(alloc, SOURCE)?;
    let blocks = Blocks::of(alloc, &program)?;
    let mut scopes = Scopes::new(alloc)?;
    does_all(&rt, alloc, &mut scopes, &blocks)?;
    Ok(())
}
