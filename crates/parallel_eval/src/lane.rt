//! One builder's part of a run: its share of the books and the nodes that it builds.

ghost use Rattle.std.specs.Prelude.{◌+◌, ◌≤◌, length};

use crate::growth::NodeOutcome;
use flight_memo::{FlightBooks, FlightShare};

/// The part of a run that one builder does: a share of its own, the nodes behind the first `before` ones
/// up to the number `last`, and what came of them in order. Where that is less, memory ran out.
#[derive(Drop)]
pub struct Lane<B: FlightBooks> {
    pub share: FlightShare<B>,
    pub before: u32,
    pub last: u32,
    pub made: Vec<NodeOutcome>,
    pub ghost order: { before + length made.items ≤ last },
}
