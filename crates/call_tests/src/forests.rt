//! Tests that a forest has room for as many nodes as were reserved.

use link_forest::{Forest, Link};
use std::test::Fail;

#[test]
fn adds_two_nodes_in_reserved_room(rt: HostRuntime) -> Result<(), Fail> {
    let mut forest = Forest::new(rt.alloc());
    forest.reserve(2)?;
    let low = forest.add_reserved(10, Link::End(false), Link::End(true));
    let high = forest.add_reserved(20, Link::To(low), Link::End(false));
    assert_eq!(rt; forest.len(), 2);
    let (payload, behind, ahead) = forest.at(low);
    assert_eq!(rt; *payload, 10);
    assert!(rt; behind == Link::End(false) && ahead == Link::End(true));
    let (payload, behind, ahead) = forest.at(high);
    assert_eq!(rt; *payload, 20);
    assert!(rt; behind == Link::To(low) && ahead == Link::End(false));
    Ok(())
}
