//! Which calls of a source or a sink in memory are to fail.

ghost use Rattle.std.specs.Prelude.{◌≡◌, ◌↔◌, IsTrue};
ghost use Rattle.outside_io.specs.Counts.{next_count, IsNextFailing};

/// Which calls of a source or a sink in memory fail, and the calls and faults so far.
#[derive(Drop)]
pub struct CallPlan {
    pub failing: Vec<u64>,
    pub calls: u64,
    pub faults: u64,
}

impl CallPlan {
    /// A plan before its first call: the numbers of the calls that fail, counted from 1.
    pub fn new(failing: Vec<u64>) -> Self
        ensures failing { result.failing ≡ failing }
        ensures calls { result.calls ≡ 0 }
        ensures faults { result.faults ≡ 0 }
    {
        CallPlan {
            failing,
            calls: 0,
            faults: 0,
        }
    }

    /// Numbers the next call, up to 2^64 - 1, and says whether it is to fail.
    pub fn begin_call(&mut self) -> bool
        ensures fails { IsTrue result ↔ IsNextFailing self.old.failing.items self.old.calls }
        ensures numbered { self.new ≡ record self.old { calls = next_count self.old.calls } }
    {
        self.calls = self.calls.saturating_add(1);
        self.failing.contains(&self.calls)
    }

    /// Counts a fault, up to 2^64 - 1.
    pub fn count_fault(&mut self)
        ensures { self.new ≡ record self.old { faults = next_count self.old.faults } }
    {
        self.faults = self.faults.saturating_add(1);
    }
}
