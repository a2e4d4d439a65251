//! Tests that a special name has its newest value, and an older one again once that is cut off.

use crate::reading::at;
use scad_scope::Scopes;
use scad_value::Value;
use std::alloc::Global;
use std::process::Abort;
use std::test::Fail;
use text_place::{Fault, FaultKind, NoMemory};

fn special(scopes: &Scopes, name: &[u8]) -> Option<i64> {
    match scopes.special(name, at(3)) {
        Ok(Value::Number(n)) => Some(*n),
        _ => None,
    }
}

fn bind_special(
    rt: &impl Abort,
    alloc: Global,
    scopes: &mut Scopes,
    name: &[u8],
    n: i64,
) -> Result<u32, NoMemory> {
    let value = Value::Number(n);
    assert!(rt; value.is_bounded());
    scopes.bind_special(alloc, name, value)
}

fn cut(rt: &impl Abort, scopes: &mut Scopes, to: u32) {
    assert!(rt; (to as usize) <= scopes.count_bindings());
    scopes.unwind(to);
}

fn binds_and_cuts(rt: &impl Abort, alloc: Global, scopes: &mut Scopes) -> Result<(), NoMemory> {
    for (name, wanted) in [(b"fn", 0), (b"fa", 12), (b"fs", 2)] {
        assert_eq!(rt; special(scopes, name), Some(wanted));
    }
    assert!(rt; bind_special(rt, alloc, scopes, b"fn", 5)? == 3);
    assert!(rt; bind_special(rt, alloc, scopes, b"x", 6)? == 4);
    assert!(rt; bind_special(rt, alloc, scopes, b"fn", 7)? == 5);
    assert_eq!(rt; special(scopes, b"fn"), Some(7));
    assert!(rt; scopes.count_bindings() == 6);
    cut(rt, scopes, 5);
    assert_eq!(rt; special(scopes, b"fn"), Some(5));
    assert_eq!(rt; special(scopes, b"x"), Some(6));
    assert!(rt; scopes.count_bindings() == 5);
    cut(rt, scopes, 3);
    assert_eq!(rt; special(scopes, b"fn"), Some(0));
    let missing = scopes.special(b"x", at(3)).err();
    let wanted = Fault {
        kind: FaultKind::UnknownName,
        place: at(3),
    };
    assert_eq!(rt; missing, Some(wanted));
    Ok(())
}

#[test]
fn finds_special_names_from_the_newest(rt: HostRuntime) -> Result<(), Fail> {
    let mut scopes = Scopes::new(rt.alloc())?;
    binds_and_cuts(&rt, rt.alloc(), &mut scopes)?;
    Ok(())
}
