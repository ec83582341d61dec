ghost use Rattle.std.specs.Prelude.{◌≡◌, ◌↔◌, ◌+◌, ◌-◌, ◌^◌, ◌<◌, ◌≤◌, ◌≢◌, ℕ, Some, Contains, IsTrue, length, max, min, vec_len};
ghost use Rattle.cc_base.specs.Streams.{TakeCause, Takes};

use crate::copies::copy_front;
use crate::streams::{Source, Took};

/// A source over memory that gives its bytes in pieces of chosen sizes and fails at chosen calls.
///
/// It tells what is left.
#[derive(Drop)]
pub struct MemorySource {
    bytes: Vec<u8>,
    at: usize,
    pieces: Vec<usize>,
    failing: Vec<u64>,
    calls: u64,
    faults: u64,
    ghost in_range: { at ≤ vec_len bytes },
}

/// Whether the call of this number fails: exactly where `failing` has it, and the number isn't the last one.
pub fn is_failing(call: u64, failing: &Vec<u64>) -> bool
    ensures { IsTrue result ↔ (call < 2 ^ 64 - 1 × Contains failing.now.items call) }
{
    call < u64::MAX && failing.contains(&call)
}

impl MemorySource {
    ghost use Rattle.cc_base.specs.MemorySource.{FailsNow, most_of, source_calls, source_failing, source_faults, source_left, source_pieces};

    /// A source of `bytes`. Its call k, counted from 0, gives at most `pieces[k mod len]` bytes, where 0 counts as 1 (all
    /// that fit where `pieces` is empty), and fails exactly where `failing` has k.
    ///
    /// The number of a call stands still at `u64::MAX`, and no call of that number fails.
    pub fn new(bytes: Vec<u8>, pieces: Vec<usize>, failing: Vec<u64>) -> MemorySource
        ensures left { source_left result ≡ bytes.items }
        ensures pieces { source_pieces result ≡ pieces.items }
        ensures failing { source_failing result ≡ failing.items }
        ensures calls { source_calls result ≡ 0 }
        ensures faults { source_faults result ≡ 0 }
    {
        MemorySource {
            bytes,
            at: 0,
            pieces,
            failing,
            calls: 0,
            faults: 0,
        }
    }

    /// The most bytes that the next call gives.
    fn most(&self) -> usize
        ensures { result ≡ most_of self.now }
    {
        if self.pieces.is_empty() {
            return usize::MAX;
        }
        let turn = self.calls % self.pieces.len() as u64;
        self.pieces[turn as usize].max(1)
    }
}

impl Source for MemorySource {
    ghost use Rattle.cc_base.specs.MemorySource.{TakesFromMemory, source_faults, source_left};

    ghost left = { λ s. Some (source_left s) };

    ghost faults = { λ s. source_faults s };

    fn take(&mut self, buf: &mut [u8]) -> Took
        requires { 0 < length buf.old }
        ensures bytes { Takes (Some (source_left self.old))
            (Some (source_left self.new)) result buf.new }
        ensures cause { TakeCause (source_faults self.old) (source_faults self.new) result }
        ensures memory { TakesFromMemory self.old self.new result (length buf.old) }
    {
        let fails = is_failing(self.calls, &self.failing);
        let most = self.most();
        self.calls = self.calls.saturating_add(1);
        if fails {
            self.faults = self.faults.saturating_add(1);
            return Took::Failed;
        }
        let count = copy_front(&self.bytes, self.at, most, buf);
        self.at += count;
        if count == 0 {
            Took::End
        } else {
            Took::Got(count)
        }
    }
}

/// A source over memory that never fails, and gives as many bytes as fit.
///
/// It tells what is left, and its count of faults is 0.
#[derive(Drop)]
pub struct SteadySource {
    bytes: Vec<u8>,
    at: usize,
    ghost in_range: { at ≤ vec_len bytes },
}

impl SteadySource {
    ghost use Rattle.cc_base.specs.MemorySource.{steady_left};

    /// A source of `bytes`.
    pub fn new(bytes: Vec<u8>) -> SteadySource
        ensures { steady_left result ≡ bytes.items }
    {
        SteadySource { bytes, at: 0 }
    }
}

impl Source for SteadySource {
    ghost use Rattle.cc_base.specs.MemorySource.{steady_left};

    ghost left = { λ s. Some (steady_left s) };

    ghost faults = { λ _. 0 };

    fn take(&mut self, buf: &mut [u8]) -> Took
        requires { 0 < length buf.old }
        ensures bytes { Takes (Some (steady_left self.old))
            (Some (steady_left self.new)) result buf.new }
        ensures cause { TakeCause 0 0 result }
        ensures never_fails { result ≢ Took.Failed }
        ensures most { (n : ℕ) → result ≡ Took.Got n
            → n ≡ min (length (steady_left self.old)) (length buf.old) }
    {
        let count = copy_front(&self.bytes, self.at, usize::MAX, buf);
        self.at += count;
        if count == 0 {
            Took::End
        } else {
            Took::Got(count)
        }
    }
}
