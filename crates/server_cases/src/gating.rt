//! A gate that holds builds or refuses them by a rule.

use parallel_eval::Gate;
use plain_text::NoMemory;
use std::sync::{Mutex, Wait};
use std::thread;

// The most turns for which a build is held until others were entered.
const MOST_TURNS: u32 = 100_000_000;

// The turns for which a build is held that is then refused.
const TURNS_HELD: u32 = 10_000;

/// Which builds are let through.
#[derive(Clone, Copy)]
pub enum Rule {
    All,
    /// The first ones, up to this number.
    First(u64),
    /// All but the first ones, up to this number, which are held for some turns.
    Later(u64),
    /// Those of one node of one client.
    Only { client: u32, node: u32 },
    /// All, where each of the first ones, up to this number, is held until that many were entered.
    Meeting(u64),
}

// How many builds were entered, and whether one was held for too long.
#[derive(Clone, Copy)]
struct Seen {
    entered: u64,
    gave_up: bool,
}

/// A gate with a rule.
#[derive(Drop)]
pub struct Gating {
    rule: Rule,
    seen: Mutex<Seen>,
}

impl Gating {
    pub fn new(rule: Rule) -> Gating {
        Gating {
            rule,
            seen: Mutex::new(Seen {
                entered: 0,
                gave_up: false,
            }),
        }
    }

    /// Whether the given number of builds were entered, and none was held in vain.
    pub fn have_met<R: Wait>(&self, rt: &R, count: u64) -> bool {
        let seen = self.seen.lock(rt);
        seen.entered >= count && !seen.gave_up
    }

    // The number of a build, from 1.
    fn arrive<R: Wait>(&self, rt: &R) -> u64 {
        let mut seen = self.seen.lock(rt);
        seen.entered = seen.entered.saturating_add(1);
        seen.entered
    }

    // Waits until the given number were entered, or gives up.
    fn hold<R: Wait>(&self, rt: &R, count: u64) {
        for _turn in 0..MOST_TURNS {
            if self.have_met(rt, count) {
                return;
            }
            thread::yield_now();
        }
        self.seen.lock(rt).gave_up = true;
    }
}

// Takes some turns.
fn take_turns() {
    for _turn in 0..TURNS_HELD {
        thread::yield_now();
    }
}

impl Gate for Gating {
    fn enter<R: Wait>(&self, rt: &R, client: u32, node: u32) -> Result<(), NoMemory> {
        let number = self.arrive(rt);
        let is_let = match self.rule {
            Rule::All => true,
            Rule::First(count) => number <= count,
            Rule::Later(count) => {
                if number <= count {
                    take_turns();
                }
                number > count
            }
            Rule::Only {
                client: own,
                node: at,
            } => client == own && node == at,
            Rule::Meeting(count) => {
                if number <= count {
                    self.hold(rt, count);
                }
                true
            }
        };
        if is_let { Ok(()) } else { Err(NoMemory) }
    }
}
