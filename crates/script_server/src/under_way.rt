//! The exports that are under way, which share the machine.

ghost use Rattle.std.specs.Prelude.{◌≤◌};

use std::sync::atomic::{AtomicU32, Ordering};

/// How many workers an export may have: 1 to 64.
#[derive(Clone, Copy)]
pub struct Workers {
    pub count: u64,
    ghost some: { 1 ≤ count },
    ghost few: { count ≤ 64 },
}

/// How many exports are under way. Each has workers of its own, so that many exports at a time with many workers each would
/// start more threads than there is work for, and each would be slower than by one worker.
#[derive(Drop)]
pub struct UnderWay {
    exports: AtomicU32,
}

impl UnderWay {
    /// No export is under way.
    pub fn none() -> UnderWay {
        UnderWay {
            exports: AtomicU32::new(0),
        }
    }

    /// Begins one more export, and gives how many workers it has: as many as the client may have where no other one is under
    /// way, and else its part of them, at least one.
    #[tactic(auto, using(crate::proofs::Parts::part_of))]
    pub fn begin(&self, most: Workers) -> Workers
        ensures { result.count ≤ most.count }
    {
        let others = self.exports.fetch_add(1, Ordering::SeqCst);
        Workers {
            count: (most.count / (u64::from(others) + 1)).max(1),
        }
    }

    /// Ends an export.
    pub fn end(&self) {
        self.exports.fetch_sub(1, Ordering::SeqCst);
    }
}
