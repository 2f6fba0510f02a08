//! The processor time of the questions alone.
use std::time::{CpuClock, Duration};

/// The processor time that the process had used at a moment.
#[derive(Clone, Copy)]
pub struct Watch(Duration);

// The processor time that the process has used; none where its clock can't be read.
fn used(rt: &impl CpuClock) -> Duration {
    rt.process_cpu_time().unwrap_or(Duration::ZERO)
}

impl Watch {
    /// The moment is now.
    pub fn start(rt: &impl CpuClock) -> Watch {
        Watch(used(rt))
    }

    /// The microseconds of processor time that the process has used since.
    pub fn micros(self, rt: &impl CpuClock) -> u128 {
        used(rt).saturating_sub(self.0).as_micros()
    }
}
