// How many workers were started.
ghost use Rattle.std.specs.Prelude.{◌≡◌, ◌+◌, ◌<◌, ◌^◌};

use std::marker::Model;
use std::thread::JoinHandle;

/// How many workers were started. Each is counted by the handle of its thread, which goes: so one whose
/// thread couldn't be started isn't counted, and none is counted twice.
#[derive(Debug, Drop)]
pub(crate) struct Serving {
    count: usize,
}

impl Model for Serving {
    ghost use Rattle.std.specs.Prelude.{ℕ};

    ghost Value = { ℕ };

    ghost view = { λ s. s.count };
}

impl Serving {
    /// None so far.
    pub(crate) fn none() -> Serving
        ensures { result ≡ 0 }
    {
        Serving { count: 0 }
    }

    /// Counts one more.
    pub(crate) fn add(&mut self, _started: JoinHandle<()>)
        requires { self.old + 1 < 2 ^ 64 }
        ensures { self.new ≡ self.old + 1 }
    {
        self.count += 1;
    }

    /// How many there are.
    pub(crate) fn count(&self) -> usize
        ensures { result ≡ self.now }
    {
        self.count
    }
}
