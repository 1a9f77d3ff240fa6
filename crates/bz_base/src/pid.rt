//! Processes as callers name them.

ghost use Rattle.std.specs.Prelude.{◌≡◌, Some};
ghost use Rattle.bz_base.specs.Pid.{number_of, pid_text, resolved};

use std::fmt;
use std::num::NonZeroU32;

/// A process: the own one, or the one with an id.
#[derive(Clone, Copy, Debug, PartialEq, Eq, PartialOrd, Ord, Hash)]
pub enum Pid {
    /// The own process.
    Slf,
    /// The process with the id.
    Pid(NonZeroU32),
}

impl Pid {
    /// The id of the process, where the own one has the id `own`.
    pub fn resolve(&self, own: u32) -> u32
        ensures { result ≡ resolved self.now own }
    {
        match self {
            Pid::Slf => own,
            Pid::Pid(id) => id.get(),
        }
    }
}

/// The own process for 0, else the one with the id.
impl From<u32> for Pid {
    ghost from_gives = { λ number pid. number_of pid ≡ number };

    fn from(number: u32) -> Pid {
        match NonZeroU32::new(number) {
            Some(id) => Pid::Pid(id),
            None => Pid::Slf,
        }
    }
}

/// Prints `self`, or the id in decimal.
impl fmt::Display for Pid {
    ghost output = { λ pid. Some (pid_text pid) };

    fn fmt<W: fmt::Write>(&self, f: &mut fmt::Formatter<W>) -> fmt::Result {
        match self {
            Pid::Slf => f.write_str("self"),
            Pid::Pid(id) => write!(f, "{}", id.get()),
        }
    }
}
