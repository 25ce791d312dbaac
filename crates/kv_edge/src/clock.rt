ghost use Rattle.std.specs.Prelude.{◌≡◌, ◌==◌, Some, None, true};

use crate::traits::Clock;
use std::rt;
use std::time::{SystemTime, UNIX_EPOCH};

/// A clock that stands still.
#[derive(Clone, Copy, Debug, PartialEq, Eq)]
pub struct MemClock {
    moment: u64,
}

impl MemClock {
    /// A clock that always answers this moment, in milliseconds since 1970.
    pub fn new(moment: u64) -> MemClock
        ensures { result.moment ≡ moment }
    {
        MemClock { moment }
    }
}

impl Clock for MemClock {
    ghost told = { λ clock. Some clock.moment };

    ghost may_answer = { λ clock moment. moment == clock.moment };

    fn now(&mut self) -> u64 {
        self.moment
    }
}

/// The system's clock. It tells nothing of its answers.
#[derive(Debug, Drop)]
pub struct StdClock<R> {
    runtime: R,
}

impl<R: rt::Clock> StdClock<R> {
    /// The clock of a runtime.
    pub fn new(runtime: R) -> StdClock<R> {
        StdClock { runtime }
    }
}

impl<R: rt::Clock> Clock for StdClock<R> {
    ghost told = { λ _. None };

    ghost may_answer = { λ _ _. true };

    /// Milliseconds since 1970; 0 where the system's clock can't be read or stands before 1970.
    fn now(&mut self) -> u64 {
        let Ok(moment) = SystemTime::now(&self.runtime) else {
            return 0;
        };
        match moment.duration_since(UNIX_EPOCH) {
            Ok(since) => u64::try_from(since.as_millis()).unwrap_or(u64::MAX),
            Err(_) => 0,
        }
    }
}
