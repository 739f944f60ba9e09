//! How far long work is, on standard error.

use std::io::IsTerminal;
use std::time::{Duration, Instant};
use work_progress::Progress;

/// Work is told once in so many milliseconds.
const REST_MILLISECONDS: u64 = 1000;

/// The clock is asked behind so many parts at most, and sooner where the last ones took more than so many milliseconds.
const MOST_PARTS: u64 = 16_384;

const LONG_MILLISECONDS: u64 = 100;

/// A line on the terminal of standard error, which says what part of some work is done once the work has run for a
/// second, and then once a second. It is wiped before anything is written. Where the meter is quiet there is none.
#[derive(Drop)]
pub struct Meter<'a> {
    rt: &'a HostRuntime,
    quiet: bool,
    /// What the work is counted by.
    parts: &'static str,
    all: u64,
    /// When the line was written last, or the work began, where there is somebody to tell.
    told: Option<Instant>,
    /// When the clock was asked last, how many parts were to pass
    /// then, and how many parts there are when it is asked next.
    asked: Option<Instant>,
    step: u64,
    next: u64,
    /// Whether the line is there.
    stands: bool,
}

impl<'a> Meter<'a> {
    /// The line of work that has not begun.
    pub fn new(rt: &'a HostRuntime, quiet: bool) -> Meter<'a> {
        Meter {
            rt,
            quiet,
            parts: "",
            all: 0,
            told: None,
            asked: None,
            step: 1,
            next: 0,
            stands: false,
        }
    }

    /// Work begins that is counted by these parts.
    pub fn start(&mut self, parts: &'static str) {
        self.parts = parts;
        self.step = 1;
        self.next = 0;
        if !self.quiet && self.rt.stderr().is_terminal() {
            self.told = Instant::now(self.rt).ok();
            self.asked = self.told;
        }
    }

    /// Writes the line.
    fn write(&mut self, done: u64) {
        let (all, parts) = (self.all, self.parts);
        let percent = u128::from(done) * 100 / u128::from(all.max(1));
        let line = format!(in self.rt.alloc(); "\r{percent} % of {all} {parts}\x1b[K");
        if let Ok(line) = line {
            // There is no other place to tell that standard error is closed.
            let _ = self.rt.eprint(line);
            self.stands = true;
        }
    }

    /// Sees when the clock is to be asked next: some thousand times a second at most.
    fn rest(&mut self, now: Instant, done: u64) {
        let long = Duration::from_millis(LONG_MILLISECONDS);
        let took_long = match self.asked {
            Some(asked) => now.duration_since(asked) > long,
            None => false,
        };
        self.step = if took_long {
            1
        } else {
            self.step.saturating_mul(2).min(MOST_PARTS)
        };
        self.next = done.saturating_add(self.step);
        self.asked = Some(now);
    }

    /// Asks the clock, and writes the line where it is time.
    fn ask(&mut self, told: Instant, done: u64) {
        let Ok(now) = Instant::now(self.rt) else {
            self.told = None;
            return;
        };
        self.rest(now, done);
        if now.duration_since(told) >= Duration::from_millis(REST_MILLISECONDS) {
            self.write(done);
            self.told = Some(now);
        }
    }
}

impl Progress for Meter<'_> {
    fn begin(&mut self, all: u64) {
        self.all = all;
    }

    fn tell(&mut self, done: u64) {
        if done < self.next {
            return;
        }
        if let Some(told) = self.told {
            self.ask(told, done);
        }
    }

    fn end(&mut self) {
        self.told = None;
        if self.stands {
            // There is no other place to tell that standard error is closed.
            let _ = self.rt.eprint("\r\x1b[K");
            self.stands = false;
        }
    }
}
