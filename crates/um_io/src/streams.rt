//! Sources and sinks of octets, with their contracts.
ghost use Rattle.std.specs.Prelude.{◌≡◌, ℕ, ◌≤◌, List, Option, OnOk, OnErr};
ghost use Rattle.std.specs.Io.{ReadsAtMost, WritesAtMost};
ghost use Rattle.std.specs.Result.{result_ok};
ghost use Rattle.std.specs.Io.KnownBytes.{ReadConsumes, WriteAppends};
ghost use Rattle.um_io.specs.Streams.{next_failure_count, FailureCountRose, TakesAtLeastOneOctet};

use std::alloc::AllocError;
use thiserror::Error;

/// A read from a source or a write to a sink failed.
#[derive(Clone, Copy, Debug, PartialEq, Eq, Error)]
#[error("the source or the sink failed")]
pub struct Failed;

/// Memory could not be allocated.
#[derive(Clone, Copy, Debug, PartialEq, Eq, Error)]
#[error("out of memory")]
pub struct NoMemory;

impl From<AllocError> for NoMemory {
    fn from(_error: AllocError) -> NoMemory {
        NoMemory
    }
}

/// A source of octets.
///
/// `left` holds the remaining octets, if the source knows them. `faults` counts failures, up to `u64::MAX`. `is_call` relates the states
/// before and after a call, because a contract cannot count calls.
pub trait Source {
    ghost left: { Self → Option (List ℕ) };

    ghost faults: { Self → ℕ };

    ghost is_call: { Self → Option ℕ → Self → Type 0 } = { λ _ _ _. Unit {0} };

    /// Writes the next octets to the start of `into` and returns their number. The rest of `into` is unspecified afterwards.
    fn take(&mut self, into: &mut [u8]) -> Result<usize, Failed>
        ensures bound { ReadsAtMost result into.new }

        // A successful call returns the first of the remaining octets; a result of 0 means the end of the input. A failed call consumes no
        // octets.
        ensures octets { ReadConsumes (left self.old) (left self.new) result into.new }
        ensures step { is_call self.old (result_ok result) self.new }

        // A successful call leaves the failure count unchanged; a failed call raises it.
        ensures unchanged { OnOk result (faults self.new ≡ faults self.old) }
        ensures later { faults self.old ≤ faults self.new }
        ensures cause { OnErr result (FailureCountRose (faults self.old) (faults self.new)) };
}

/// A sink of octets.
///
/// `taken` holds the octets taken so far, if the sink knows them. `faults` counts failures, up to `u64::MAX`.
pub trait Sink {
    ghost taken: { Self → Option (List ℕ) };

    ghost faults: { Self → ℕ };

    /// Takes octets from the start of `piece` and returns their number.
    fn put(&mut self, piece: &[u8]) -> Result<usize, Failed>
        ensures bound { WritesAtMost result piece.now }

        // A successful call takes at least one octet, unless `piece` is empty.
        ensures some { TakesAtLeastOneOctet result piece.now }

        // The octets are appended to those taken so far; a failed call takes no octets.
        ensures octets { WriteAppends (taken self.old) (taken self.new) result piece.now }

        // A successful call leaves the failure count unchanged; a failed call raises it.
        ensures unchanged { OnOk result (faults self.new ≡ faults self.old) }
        ensures later { faults self.old ≤ faults self.new }
        ensures cause { OnErr result (FailureCountRose (faults self.old) (faults self.new)) };
}

/// Raises the count, up to `u64::MAX`.
pub(crate) fn count_failure(count: &mut u64) -> Failed
    ensures raised { count.new ≡ next_failure_count count.old }
    ensures later { count.old ≤ count.new }
{
    *count = count.saturating_add(1);
    Failed
}
