//! The error that stopped a reader, if any, and how many bits were read.

ghost use Rattle.std.specs.Prelude.{◌≡◌, ◌+◌, ◌^◌, ◌<◌, Some, None};
ghost use Rattle.deku_stream.specs.Kept.{Admits, standing_of};

use deku_stream::error::{DekuError, Fault};
use std::marker::Model;

/// Why a reader has stopped, and how many bits it had read by then.
#[derive(Clone, Copy)]
pub struct Stop {
    fault: Fault,
    count: usize,
}

/// Whether a reader has stopped, and how many bits were read. It stores how many bits may still be
/// counted, which is none if the reader has stopped. So one comparison is enough to allow a read.
#[derive(Drop)]
pub struct Tally {
    left: usize,
    stop: Option<Stop>,
}

impl Model for Tally {
    ghost use Rattle.deku_reader.specs.Tallies.{Tallied, tallied, Spent};

    ghost Value = { Tallied };

    ghost view = { λ t. tallied t.stop t.left };

    ghost invariant = { λ t. Spent t.stop t.left };
}

impl Tally {
    /// This many bits are read, and no error is kept.
    #[inline(always)]
    pub fn going(count: usize) -> Tally
        ensures { result ≡ record { fault = None; count = count } }
    {
        Tally {
            left: usize::MAX - count,
            stop: None,
        }
    }

    /// This many bits are read, and this error is kept.
    #[inline(always)]
    pub fn stopped(fault: Fault, count: usize) -> Tally
        ensures { result ≡ record { fault = Some fault; count = count } }
    {
        Tally {
            left: 0,
            stop: Some(Stop { fault, count }),
        }
    }

    /// How many bits were read.
    #[inline(always)]
    pub fn count(&self) -> usize
        ensures { result ≡ self.now.count }
    {
        match self.stop {
            None => usize::MAX - self.left,
            Some(stop) => stop.count,
        }
    }

    /// The error that is kept.
    #[inline(always)]
    pub fn fault(&self) -> Option<Fault>
        ensures { result ≡ self.now.fault }
    {
        match self.stop {
            None => None,
            Some(stop) => Some(stop.fault),
        }
    }

    /// Fails as a reader does before it moves anything: with its kept error, or because the count
    /// would not fit.
    // Not `inline(always)`: the compiler drops that from callers that would grow too much by it.
    #[inline]
    pub fn admits(&self, amt: usize) -> Result<(), DekuError>
        ensures { Admits amt (standing_of (tt {0}) self.now.fault self.now.count) result }
    {
        if amt < self.left {
            return Ok(());
        }
        if let Some(stop) = self.stop {
            return Err(stop.fault.error());
        }
        if self.left < amt {
            return Err(DekuError::InvalidParam("count past usize"));
        }
        Ok(())
    }

    /// Counts `amt` more bits as read.
    ///
    /// The caller's conditions: no error is kept, and the count has room for them.
    #[inline(always)]
    pub fn add(&mut self, amt: usize)
        requires going { self.old.fault ≡ None }
        requires fits { self.old.count + amt < 2 ^ 64 }
        ensures { self.new ≡ record { fault = None; count = self.old.count + amt } }
    {
        self.left -= amt;
    }
}
