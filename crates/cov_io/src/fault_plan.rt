//! Which calls of an object in memory are to fail.

ghost use Rattle.std.specs.Prelude.{◌≡◌, ◌↔◌, ◌+◌, ◌-◌, ◌^◌, min, Contains, IsTrue};

/// The calls that are to fail, by their numbers from 0, and how many calls there were.
pub struct FaultPlan {
    failing: Vec<u64>,
    calls: u64,
}

// Written out: a derived drop is proved anew in each crate above.
impl Drop for FaultPlan {
    fn drop(self) {
        let FaultPlan {
            failing: _,
            calls: _,
        } = self;
    }
}

impl FaultPlan {
    /// Before the first call.
    pub fn new(failing: Vec<u64>) -> Self
        ensures failing { result.failing.items ≡ failing.items }
        ensures first { result.calls ≡ 0 }
    {
        FaultPlan { failing, calls: 0 }
    }

    /// Counts one more call, and says whether it is to fail. The count stops at `u64::MAX`.
    pub fn fails_next(&mut self) -> bool
        ensures fails { IsTrue result ↔ Contains self.old.failing.items self.old.calls }
        ensures counted { self.new.calls ≡ min (self.old.calls + 1) (2 ^ 64 - 1) }
        ensures failing { self.new.failing.items ≡ self.old.failing.items }
    {
        let fails = self.failing.contains(&self.calls);
        self.calls = self.calls.saturating_add(1);
        fails
    }
}
