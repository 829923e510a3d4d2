use crate::clock::Clock;
use std::rt;
use std::time::{SystemTime, UNIX_EPOCH};

const SECONDS_A_DAY: u64 = 86_400;

/// The day of the system's clock. It is 0 where the clock cannot be read or stands before 1970,
/// and `u32::MAX` past that day.
#[derive(Drop)]
pub struct SystemDay<R: rt::Clock> {
    clock: R,
}

impl<R: rt::Clock> SystemDay<R> {
    /// The day of the clock of this runtime.
    pub fn new(clock: R) -> Self {
        Self { clock }
    }
}

impl<R: rt::Clock> Clock for SystemDay<R> {
    // The system's clock may state any day.
    ghost states = { λ _ _. Unit {0} };

    fn day(&self) -> u32 {
        let Ok(now) = SystemTime::now(&self.clock) else {
            return 0;
        };
        match now.duration_since(UNIX_EPOCH) {
            Ok(since) => u32::try_from(since.as_secs() / SECONDS_A_DAY).unwrap_or(u32::MAX),
            Err(_) => 0,
        }
    }
}
