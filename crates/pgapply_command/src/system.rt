// What a command needs of the system beside what it opens: a clock.
use leader::Clock;
use std::fmt;
use std::fmt::{Debug, Formatter};
use std::rt::Clock as Host;
use std::time::{Duration, SystemTime};

/// From the Unix epoch to 2000-01-01, PostgreSQL's epoch.
const POSTGRES_EPOCH_SECONDS: u64 = 946_684_800;

/// The system's clock. A clock that can't be read, or stands before 2000, answers 0.
#[derive(Drop)]
pub struct SystemClock<'a, H: Host> {
    host: &'a H,
}

impl<'a, H: Host> Debug for SystemClock<'a, H> {
    fn fmt<W: fmt::Write>(&self, f: &mut Formatter<W>) -> fmt::Result {
        f.debug_struct("SystemClock").finish_non_exhaustive()
    }
}

impl<'a, H: Host> SystemClock<'a, H> {
    pub fn new(host: &'a H) -> SystemClock<'a, H> {
        SystemClock { host }
    }

    fn since_epoch(&self) -> Option<Duration> {
        let now = SystemTime::now(self.host).ok()?;
        let since = now.duration_since(SystemTime::UNIX_EPOCH).ok()?;
        since.checked_sub(Duration::from_secs(POSTGRES_EPOCH_SECONDS))
    }
}

impl<H: Host> Clock for SystemClock<'_, H> {
    ghost use Rattle.std.specs.Prelude.{None};

    ghost told = { λ _. None };

    fn micros(&mut self) -> i64 {
        match self.since_epoch() {
            Some(since) => i64::try_from(since.as_micros()).unwrap_or(0),
            None => 0,
        }
    }
}
