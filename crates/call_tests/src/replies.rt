//! Tests of the reply that too many corners or vertices have.

use reply_text::{PassedLimit, Reply, push_reply};
use std::test::Fail;

// No source is known that is answered so.
#[test]
fn writes_that_corners_or_vertices_are_too_many(rt: HostRuntime) -> Result<(), Fail> {
    let alloc = rt.alloc();
    let mut out = Vec::new(alloc);
    push_reply(
        alloc,
        &mut out,
        4,
        &Reply::PassedLimit(PassedLimit::Corners),
    )?;
    push_reply(
        alloc,
        &mut out,
        5,
        &Reply::PassedLimit(PassedLimit::Vertices),
    )?;
    assert_eq!(rt;
        out.as_slice(),
        b"4 complex corners\n5 complex vertices\n".as_slice()
    );
    Ok(())
}
