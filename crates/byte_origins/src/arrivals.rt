//! All that commands brought, one behind the other.

ghost use Rattle.std.specs.Prelude.{◌≡◌, ◌+◌, ◌<◌, ◌≤◌, ◌^◌, ◌++◌, [], length, IfOk, IfSome, OnOk, OnErr};
ghost use Rattle.std.specs.List.{AllWithin};
ghost use Rattle.byte_origins.specs.Arrivals.{AreArrivals};
ghost use Rattle.byte_origins.specs.Behind.{FitsNumbers};
ghost use Rattle.byte_origins.specs.Origins.{run_origins, IsOriginRun};

use crate::run::OriginRun;
use std::alloc::{AllocError, Global};
use std::marker::Model;

/// Bytes that a command brought, and how many were brought before them.
#[derive(Clone, Copy, Debug, PartialEq, Eq)]
pub(crate) struct Arrival {
    pub(crate) before: u64,
    pub(crate) run: OriginRun,
}

/// How many of them begin at `place` or before it.
fn count_begun(list: &[Arrival], place: u64) -> usize
    requires { AreArrivals 0 list.now }
    ensures within { result ≤ length list.now }
    ensures begun { AllWithin (λ x. x.before ≤ place) list.now 0 result }
    ensures behind { AllWithin (λ x. place < x.before) list.now result (length list.now) }
{
    list.partition_point(|x| x.before <= place)
}

/// All bytes that were brought so far. Contracts see the list of their origins.
#[derive(Drop)]
pub(crate) struct Arrivals {
    list: Vec<Arrival>,
    count: u64,
}

impl Model for Arrivals {
    ghost use Rattle.std.specs.Prelude.{List, ◌≡◌, length};
    ghost use Rattle.byte_origins.specs.declared.run.Origin.{Origin};
    ghost use Rattle.byte_origins.specs.Arrivals.{AreArrivals, arrived};

    ghost Value = { List Origin };

    ghost view = { λ s. arrived s.list.items };

    ghost invariant = { λ s. AreArrivals 0 s.list.items × (s.count ≡ length (arrived s.list.items)) };
}

impl Arrivals {
    /// None. It takes no memory.
    pub(crate) fn new(alloc: Global) -> Arrivals
        ensures { result ≡ [] }
    {
        Arrivals {
            list: Vec::new(alloc),
            count: 0,
        }
    }

    /// How many bytes were brought.
    pub(crate) fn count(&self) -> u64
        ensures { result ≡ length self.now }
    {
        self.count
    }

    /// Puts bytes that a command brought behind the others.
    pub(crate) fn push(&mut self, run: OriginRun) -> Result<(), AllocError>
        requires room { length self.old + run.len < 2 ^ 64 }
        requires fits { FitsNumbers run }
        ensures ok { OnOk result (self.new ≡ self.old ++ run_origins run) }
        ensures err { OnErr result (self.new ≡ self.old) }
    {
        let before = self.count;
        self.list.push(Arrival { before, run })?;
        self.count = before + run.len;
        Ok(())
    }

    /// The run that the bytes from a place on begin with, where there are such.
    pub(crate) fn run_at(&self, place: u64) -> Option<OriginRun>
        ensures { IfSome result (IsOriginRun self.now place) }
    {
        if place >= self.count {
            return None;
        }
        let last = count_begun(&self.list, place).checked_sub(1)?;
        let found = self.list[last];
        Some(found.run.rest_from(place - found.before))
    }
}
