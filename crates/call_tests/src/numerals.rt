//! Tests that numerals are appended one after another.

use std::test::Fail;
use text_place::push_decimal;

#[test]
fn writes_numerals_one_after_another(rt: HostRuntime) -> Result<(), Fail> {
    let mut out = Vec::new(rt.alloc());
    for value in [0, -1, 10, 4095, i128::MAX, -i128::MAX] {
        push_decimal(rt.alloc(), &mut out, value)?;
        out.push(b' ')?;
    }
    assert_eq!(rt;
        out.as_slice(),
        b"0 -1 10 4095 170141183460469231731687303715884105727 -170141183460469231731687303715884105727 ".as_slice()
    );
    Ok(())
}
