//! How long something takes.
use crate::stopped::Stopped;
use std::test::Fail;
use std::time::Instant;

/// A time that is running.
#[derive(Drop)]
pub struct Watch(Instant);

impl Watch {
    /// From now on.
    ///
    /// # Errors
    /// A call of the system that failed, as of all that follow.
    pub fn start(rt: &HostRuntime) -> Result<Watch, Stopped> {
        Ok(Watch(Instant::now(rt)?))
    }

    /// The nanoseconds since then, at least one.
    pub fn taken(&self, rt: &HostRuntime) -> Result<u64, Stopped> {
        let taken = self.0.elapsed(rt)?.as_nanos();
        Ok(u64::try_from(taken).unwrap_or(u64::MAX).max(1))
    }

    /// The same.
    pub fn nanoseconds(&self, rt: &HostRuntime) -> Result<u64, Fail> {
        Ok(self.taken(rt)?)
    }
}

/// How many a second there are, if there were so many in these nanoseconds.
pub fn a_second(count: u64, nanoseconds: u64) -> u64 {
    count.saturating_mul(1_000_000_000) / nanoseconds.max(1)
}
