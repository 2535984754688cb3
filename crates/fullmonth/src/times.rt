// How long the calls of one sort took, in nanoseconds.
use std::alloc::{AllocFailed, Global};
use std::io;
use std::time::Duration;

#[derive(Drop)]
pub struct Times {
    call: &'static str,
    took: Vec<u64>,
}

impl Times {
    pub fn new(heap: Global, call: &'static str) -> Times {
        Times {
            call,
            took: Vec::new(heap),
        }
    }

    pub fn keep(&mut self, took: Duration) -> Result<(), AllocFailed<u64>> {
        self.took
            .push(u64::try_from(took.as_nanos()).unwrap_or(u64::MAX))
    }

    // Writes how many calls were made, and the median of their times.
    pub fn show(&mut self, rt: &HostRuntime, name: &str) -> io::Result<()> {
        self.took.sort_unstable();
        let call = self.call;
        let count = self.took.len();
        let median = self.took.get(count / 2).copied().unwrap_or(0);
        eprintln!(rt; "{name} {call} {count} {median}")
    }
}
