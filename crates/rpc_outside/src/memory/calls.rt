//! The calls of an object in memory, some of which are told to fail.
ghost use Rattle.std.specs.Prelude.{◌≡◌, ◌↔◌, IsTrue, IsErr};
ghost use Rattle.rpc_outside.specs.CallLog.{CallLog, IsNamed, IsLogged, fresh, passed, failed};
ghost use Rattle.memory_count.specs.Faults.{HasCause, HasRisen};

use crate::failed::Failed;
use std::marker::Model;

/// Numbers the calls of an object from 0, and knows which of them are to fail.
#[derive(Debug, Drop)]
pub struct Calls {
    fails: Vec<u64>,
    made: u64,
    faults: u64,
}

impl Model for Calls {
    ghost use Rattle.rpc_outside.specs.CallLog.{CallLog};

    ghost Value = { CallLog };

    ghost view = { λ c. record { fails = c.fails.items; made = c.made; faults = c.faults } };
}

impl Calls {
    pub fn new(fails: Vec<u64>) -> Calls
        ensures { result ≡ fresh fails.items }
    {
        Calls {
            fails,
            made: 0,
            faults: 0,
        }
    }

    /// Tells whether the call that comes next is to fail.
    pub fn is_named(&self) -> bool
        ensures { IsTrue result ↔ IsNamed self.now }
    {
        self.fails.contains(&self.made)
    }

    /// Counts a call that went well.
    pub fn pass(&mut self)
        ensures { self.new ≡ passed self.old }
    {
        self.made = self.made.saturating_add(1);
    }

    /// Counts a call that failed.
    pub fn fail(&mut self)
        ensures counted { self.new ≡ failed self.old }
        ensures fault { HasRisen self.old.faults self.new.faults }
    {
        self.made = self.made.saturating_add(1);
        self.faults = self.faults.saturating_add(1);
    }

    /// Counts the call that comes next, which fails exactly where it is named.
    pub fn make(&mut self) -> Result<(), Failed>
        ensures named { IsErr result ↔ IsNamed self.old }
        ensures logged { IsLogged self.old self.new result }
        ensures cause { HasCause self.old.faults self.new.faults result }
    {
        if self.is_named() {
            self.fail();
            return Err(Failed);
        }
        self.pass();
        Ok(())
    }
}
