//! What went through a device of the system so far, as the two devices over streams count it.
ghost use Rattle.std.specs.Prelude.{◌≡◌, ◌≤◌, ◌<◌, ◌+◌, ◌-◌, ◌^◌, ◌++◌, length};
ghost use Rattle.minelib_reader.specs.Device.{unread, progress};

use crate::history::History;
use std::marker::Model;

/// The bytes that went through, how many calls failed, and how many bytes may still be read.
#[derive(Drop)]
pub struct Tally {
    history: History,
    failures: u64,
    allowance: u64,
}

impl Model for Tally {
    ghost use Rattle.minelib_reader.specs.Device.{Progress, progress};

    ghost Value = { Progress };

    ghost view = { λ t. progress t.history.bytes t.failures t.allowance };
}

impl Tally {
    pub(crate) fn new(allowance: u64) -> Tally
        ensures { result ≡ unread allowance }
    {
        Tally {
            history: History::new(),
            failures: 0,
            allowance,
        }
    }

    /// How many bytes may still be read.
    pub(crate) fn allowance(&self) -> u64
        ensures { result ≡ self.now.allowance }
    {
        self.allowance
    }

    /// The stream gave these bytes.
    pub(crate) fn gave(&mut self, bytes: &[u8])
        requires { length bytes.now ≤ self.old.allowance }
        ensures { self.new ≡ progress (self.old.bytes ++ bytes.now) self.old.failures (self.old.allowance - length bytes.now) }
    {
        self.history.note(bytes);
        self.allowance -= bytes.len() as u64;
    }

    /// The stream took these bytes.
    pub(crate) fn took(&mut self, bytes: &[u8])
        ensures { self.new ≡ progress (self.old.bytes ++ bytes.now) self.old.failures self.old.allowance }
    {
        self.history.note(bytes);
    }

    /// A call failed.
    pub(crate) fn failed(&mut self)
        requires { self.old.failures < 2 ^ 63 }
        ensures { self.new ≡ progress self.old.bytes (self.old.failures + 1) self.old.allowance }
    {
        self.failures += 1;
    }
}
