//! The calls of an object in memory, some of which fail.
ghost use Rattle.std.specs.Prelude.{◌≡◌, ◌+◌, ◌-◌, ◌^◌, ◌≤◌, min, is_err};
ghost use Rattle.sx_spec.specs.Causes.{HasCause, Rose};
ghost use Rattle.sx_memory.specs.Calls.{called, failed_more, is_due};

use sx_edge::source::Failed;

/// Counts calls and faults, and holds the numbers of the calls that are to fail, counted from 1.
#[derive(Drop)]
pub struct Calls {
    fails: Vec<u64>,
    made: u64,
    faults: u64,
}

impl Calls {
    /// No call was made yet.
    pub fn new(fails: Vec<u64>) -> Calls
        ensures fails { result.fails ≡ fails }
        ensures made { result.made ≡ 0 }
        ensures faults { result.faults ≡ 0 }
    {
        Calls {
            fails,
            made: 0,
            faults: 0,
        }
    }

    /// How many calls were made, up to 2^64 - 1.
    pub fn made(&self) -> u64
        ensures { result ≡ self.now.made }
    {
        self.made
    }

    /// Makes the next call: it fails where its number is one of those that are to fail.
    pub fn make(&mut self) -> Result<(), Failed>
        ensures exact { is_err result ≡ is_due self.old }
        ensures after { self.new ≡ called self.old }
        ensures cause { HasCause self.old.faults self.new.faults result }
    {
        self.made = self.made.saturating_add(1);
        if self.fails.contains(&self.made) {
            return Err(self.fail());
        }
        Ok(())
    }

    /// Counts one more fault.
    pub fn fail(&mut self) -> Failed
        ensures more { self.new ≡ failed_more self.old }
        ensures later { self.old.faults ≤ self.new.faults }
        ensures rose { Rose self.old.faults self.new.faults }
    {
        self.faults = self.faults.saturating_add(1);
        Failed
    }
}
