//! The solids of the first nodes of a store, and the first node that passes a limit of size.

ghost use Rattle.std.specs.Prelude.{◌≡◌, ◌+◌, ◌-◌, ◌≤◌, List, length, OnOk, IfErr};
ghost use Rattle.csg_tree.specs.Numberings.{IsNumberIn};
ghost use Rattle.bsp_boolean.specs.TreeSolids.{IsTreeStop};
ghost use Rattle.parallel_eval.specs.Runs.{IsGrown, IsNodeOutcome, IsMade, AreNodeOutcomes, IsComplete, AreLanes, AreComplete};

use crate::lane::Lane;
use bsp_boolean::{MOST_OF_ALL, TreeStop, one_tree_more};
use bsp_tree::Solid;
use csg_tree::CsgStore;
use flight_memo::FlightBooks;
use std::sync::Arc;

/// What came of one node: its solid, or that it is above the limit of one.
#[derive(Drop)]
pub enum NodeOutcome {
    Made(Arc<Solid>),
    TooBig,
}

/// The solids of the first nodes of a store in order of number, and what they are in size together.
#[derive(Drop)]
pub struct Growth<'a> {
    pub store: &'a CsgStore,
    pub solids: Vec<Arc<Solid>>,
    pub sum: u64,
}

impl<'a> Growth<'a> {
    // Takes what came of the next node, whose number is given.
    fn take_in(&mut self, number: u32, outcome: &NodeOutcome) -> Result<(), TreeStop>
        requires number { IsNumberIn self.old.store.now number }
        requires grown { IsGrown self.old.store.now (number - 1) self.old }
        requires outcome { IsNodeOutcome self.old.store.now number outcome.now }
        ensures grown { OnOk result (IsGrown self.old.store.now number self.new) }
        ensures made { OnOk result (IsMade outcome.now) }
        ensures stop { IfErr result (IsTreeStop self.old.store.now) }
        ensures store { self.new.store.now ≡ self.old.store.now }
    {
        // Called for its law; does nothing when it runs: what one tree more adds to the first ones of a list.
        one_tree_more();
        let NodeOutcome::Made(solid) = outcome else {
            return Err(TreeStop::TooBig(number));
        };
        let size = solid.count();
        if size > MOST_OF_ALL - self.sum {
            return Err(TreeStop::SumTooBig(number));
        }
        let Ok(kept) = Arc::try_clone(solid) else {
            return Err(TreeStop::NoMemory);
        };
        if self.solids.push(kept).is_err() {
            return Err(TreeStop::NoMemory);
        }
        self.sum += size;
        Ok(())
    }

    // Takes what came of the nodes of one lane, of which some are left. Where one is missing, memory ran
    // out at it.
    fn take_lane(
        &mut self,
        before: u32,
        last: u32,
        outcomes: &[NodeOutcome],
    ) -> Result<(), TreeStop>
        requires grown { IsGrown self.old.store.now before self.old }
        requires outcomes { AreNodeOutcomes self.old.store.now before outcomes.now }
        requires within { (before + length outcomes.now ≤ last)
            × (last ≤ length self.old.store.now) }
        ensures grown { OnOk result (IsGrown self.old.store.now last self.new) }
        ensures complete { OnOk result (IsComplete before last outcomes.now) }
        ensures stop { IfErr result (IsTreeStop self.old.store.now) }
        ensures store { self.new.store.now ≡ self.old.store.now }
    {
        match outcomes {
            [] if before == last => Ok(()),
            [] => Err(TreeStop::NoMemory),
            [outcome, others @ ..] => {
                self.take_in(before + 1, outcome)?;
                self.take_lane(before + 1, last, others)
            }
        }
    }

    /// Takes what came of the nodes of all lanes, in order of number. The first one that passes a limit
    /// decides.
    pub fn take_lanes<B: FlightBooks>(
        &mut self,
        before: u32,
        last: u32,
        lanes: &[Lane<B>],
    ) -> Result<(), TreeStop>
        requires grown { IsGrown self.old.store.now before self.old }
        requires lanes { AreLanes self.old.store.now before last lanes.now }
        requires within { last ≤ length self.old.store.now }
        ensures grown { OnOk result (IsGrown self.old.store.now last self.new) }
        ensures complete { OnOk result (AreComplete lanes.now) }
        ensures stop { IfErr result (IsTreeStop self.old.store.now) }
        ensures store { self.new.store.now ≡ self.old.store.now }
    {
        let [lane, others @ ..] = lanes else {
            return Ok(());
        };
        self.take_lane(before, lane.last, &lane.made)?;
        self.take_lanes(lane.last, last, others)
    }
}
