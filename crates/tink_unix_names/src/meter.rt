//! The progress of reading, on a terminal.

use std::time::Instant;

/// Shows on standard error how much was read, if the work takes more than a second.
#[derive(Drop)]
pub struct Meter {
    start: Option<Instant>,
    total: Option<u64>,
    done: u64,
    shown: u64,
}

impl Meter {
    /// A meter of `total` bytes, if their number is known. It shows something only if it may.
    pub fn new(rt: &HostRuntime, total: Option<u64>, may_show: bool) -> Meter {
        let start = if may_show {
            Instant::now(rt).ok()
        } else {
            None
        };
        Meter {
            start,
            total,
            done: 0,
            shown: 0,
        }
    }

    /// How many bytes were read.
    pub fn bytes_read(&self) -> u64 {
        self.done
    }

    /// Counts bytes that were read.
    pub fn add(&mut self, rt: &HostRuntime, bytes: u64) {
        self.done = self.done.saturating_add(bytes);
        let Some(start) = self.start else {
            return;
        };
        let Ok(passed) = start.elapsed(rt) else {
            return;
        };
        let seconds = passed.as_secs();
        if seconds > self.shown {
            self.shown = seconds;
            show(rt, self.done, self.total, seconds);
        }
    }

    /// Clears the line.
    pub fn end(&self, rt: &HostRuntime) {
        if self.shown > 0 {
            let _shown = eprint!(rt; "\r                                                  \r");
        }
    }
}

// One line: bytes, bytes a second, and the time that is left.
fn show(rt: &HostRuntime, done: u64, total: Option<u64>, seconds: u64) {
    let mib = done >> 20;
    let rate = (done >> 10).checked_div(seconds).unwrap_or(0);
    let speed = rate >> 10;
    let left = match total {
        Some(total) => (total.saturating_sub(done) >> 10).checked_div(rate),
        None => None,
    };
    let _shown = match left {
        Some(left) => eprint!(rt; "\r{mib} MiB, {speed} MiB/s, {left} s left    "),
        None => eprint!(rt; "\r{mib} MiB, {speed} MiB/s    "),
    };
}
