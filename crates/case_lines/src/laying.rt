//! Phrases that put planes.

use crate::phrase::found;
use crate::stop::CaseStop;
use crate::walls::{Walls, high, low, through};

#[derive(Clone, Copy)]
pub enum Laying {
    Low,
    High,
    Through,
    Steps,
}

const LAYINGS: [(&[u8], Laying); 4] = [
    (b"low", Laying::Low),
    (b"high", Laying::High),
    (b"through", Laying::Through),
    (b"steps", Laying::Steps),
];

pub fn laying_of(word: &[u8]) -> Option<Laying> {
    found(&LAYINGS, word)
}

// Puts the planes of an axis at the given number of coordinates from the greatest down to 1, each seen from where it is
// greater.
fn lay_steps(walls: &mut Walls, axis: i64, count: i64) -> Result<(), CaseStop> {
    for below in 0..count {
        walls.put(high(axis, count.saturating_sub(below)))?;
    }
    Ok(())
}

/// Puts the planes of a phrase.
pub fn lay(walls: &mut Walls, laying: Laying, numbers: &[i64]) -> Result<(), CaseStop> {
    match (laying, numbers) {
        (Laying::Low, [axis, at]) => walls.put(low(*axis, *at)),
        (Laying::High, [axis, at]) => walls.put(high(*axis, *at)),
        (Laying::Through, [a, b, c, d, e, f, g, h, i]) => {
            walls.put(through([*a, *b, *c], [*d, *e, *f], [*g, *h, *i]))
        }
        (Laying::Steps, [axis, count]) => lay_steps(walls, *axis, *count),
        _ => Err(CaseStop::Unread),
    }
}
