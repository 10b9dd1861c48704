//! The calls of a form in memory: how many were made, which of them fail, and how many did.

ghost use Rattle.std.specs.Prelude.{◌≡◌, ◌≤◌, ◌↔◌, [], IsTrue, Contains, if◌then◌else◌};
ghost use Rattle.std.specs.Bool.{OnTrue};
ghost use Rattle.outside_traits.specs.Causes.{raised, Rose};

/// The calls of an object in memory.
#[derive(Debug, Drop)]
pub struct Calls {
    /// The numbers of the calls that are to fail, counted from 1.
    pub fails: Vec<u64>,
    /// How many calls were made. It stops at 2^64 - 1.
    pub made: u64,
    /// How many calls failed. It stops at 2^64 - 1.
    pub faults: u64,
    /// How many calls failed for want of memory. It stops at 2^64 - 1.
    pub short: u64,
}

impl Calls {
    /// No call was made yet.
    pub fn new(fails: Vec<u64>) -> Calls
        ensures { result ≡ record { fails = fails; made = 0; faults = 0; short = 0 } }
    {
        Calls {
            fails,
            made: 0,
            faults: 0,
            short: 0,
        }
    }

    /// Counts a call, and answers whether it is one of those that are to fail.
    pub fn fails_now(&mut self) -> bool
        ensures answer { IsTrue result ↔ Contains self.old.fails.items (raised self.old.made) }
        ensures counted { self.new ≡ record self.old {
          made = raised self.old.made;
          faults = (if result then raised self.old.faults else self.old.faults);
        } }
        ensures later { self.old.faults ≤ self.new.faults }
        ensures rose { OnTrue result (Rose self.old.faults self.new.faults) }
    {
        self.made = self.made.saturating_add(1);
        let fails = self.fails.contains(&self.made);
        if fails {
            self.faults = self.faults.saturating_add(1);
        }
        fails
    }

    /// Counts a call that found no memory.
    pub fn lacks_memory(&mut self)
        ensures counted { self.new ≡ record self.old {
          faults = raised self.old.faults;
          short = raised self.old.short;
        } }
        ensures later { self.old.faults ≤ self.new.faults }
        ensures rose { Rose self.old.faults self.new.faults }
        ensures short { Rose self.old.short self.new.short }
    {
        self.faults = self.faults.saturating_add(1);
        self.short = self.short.saturating_add(1);
    }
}
