//! Meetings of callers.

use std::sync::atomic::AtomicU64;
use std::sync::atomic::Ordering::SeqCst;
use std::thread;

// The most turns for which one waits.
const MOST_TURNS: u32 = 100_000_000;

/// How many have come so far.
#[derive(Drop)]
pub struct Meeting {
    come: AtomicU64,
}

impl Meeting {
    pub fn new() -> Meeting {
        Meeting {
            come: AtomicU64::new(0),
        }
    }

    /// Comes, and waits until the given number have come; whether they came in time. Where the number is 0, nobody comes.
    pub fn meet(&self, count: u64) -> bool {
        if count == 0 {
            return true;
        }
        self.come.fetch_add(1, SeqCst);
        for _turn in 0..MOST_TURNS {
            if self.come.load(SeqCst) >= count {
                return true;
            }
            thread::yield_now();
        }
        false
    }
}
