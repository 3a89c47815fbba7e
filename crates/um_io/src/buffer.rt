//! The buffer of a line reader.
ghost use Rattle.std.specs.Prelude.{◌≡◌, ◌≤◌, ◌<◌, ◌+◌, ◌-◌, ℕ, List, [], ◌++◌, length, take, drop};
ghost use Rattle.std.specs.Prelude.{false, slice_index, slice_range, vec_len, MatchOption, IfOk, OnOk, OnErr};
ghost use Rattle.std.specs.Io.KnownBytes.{Consumes, Keeps, IsAtEnd};
ghost use Rattle.std.specs.Result.{result_ok};
ghost use Rattle.um_io.specs.Lines.{IsLine, IsFirstLineFeed};
ghost use Rattle.um_io.specs.Streams.{FailureCountRose};
ghost use Rattle.um_io.specs.Reading.{buffer_limit};

use crate::streams::{Failed, NoMemory, Source};
use memchr::memchr;
use std::alloc::Global;
use std::simd::prelude::*;

/// The maximum number of octets in a line, without its line feed.
pub(crate) const LINE_LIMIT: usize = 4096;

/// The capacity of the buffer in octets: the longest line and its line feed. No read takes more, so that each line is answered before more
/// is read; with 64 KB a block of `replay` would take 0.12 to 0.18 us less.
const BUFFER_SIZE: usize = LINE_LIMIT + 1;

/// The number of octets that a search tests in each round. Rounds of 32 octets were tried and not kept.
const VECTOR_SIZE: usize = 64;

/// A buffer that holds the octets at the indices from `start` up to, but not including, `end`. Those before index `scanned` contain no line
/// feed, so no search tests them again.
#[derive(Debug, Drop)]
pub(crate) struct Buffer {
    octets: Vec<u8>,
    start: usize,
    scanned: usize,
    end: usize,
    ghost size: { vec_len octets ≡ buffer_limit },
    ghost start_order: { start ≤ scanned },
    ghost scan_order: { scanned ≤ end },
    ghost in_range: { end ≤ buffer_limit },
    ghost no_line_feed: { IsLine (slice_range octets.items start scanned) },
}

impl Buffer {
    ghost use Rattle.um_io.specs.Buffer.{octets_of};

    pub(crate) fn new(alloc: Global) -> Result<Self, NoMemory>
        ensures { IfOk result (λ b. octets_of b ≡ []) }
    {
        let octets = vec![in alloc; 0; BUFFER_SIZE]?;
        Ok(Buffer {
            octets,
            start: 0,
            scanned: 0,
            end: 0,
        })
    }

    pub(crate) fn len(&self) -> usize
        ensures held { result ≡ length (octets_of self.now) }
        ensures space { result ≤ buffer_limit }
    {
        self.end - self.start
    }

    /// Returns the index of the first line feed among the buffered octets, if there is one. Scans no octet twice, except a line feed that
    /// an earlier call has found.
    pub(crate) fn first_line_feed(&mut self) -> Option<usize>
        ensures unchanged { octets_of self.new ≡ octets_of self.old }
        ensures found { MatchOption result (IsLine (octets_of self.old)) (IsFirstLineFeed (octets_of self.old)) }
    {
        match find_line_feed(&self.octets[self.scanned..self.end]) {
            Some(at) => {
                self.scanned += at;
                Some(self.scanned - self.start)
            }
            None => {
                self.scanned = self.end;
                None
            }
        }
    }

    /// Calls the source once, asking for as many octets as fit, and returns the number of octets received.
    pub(crate) fn read<S: Source>(&mut self, source: &mut S) -> Result<usize, Failed>
        requires space { length (octets_of self.old) < buffer_limit }
        ensures came { IfOk result (λ n. (came : List ℕ) × (octets_of self.new ≡ octets_of self.old ++ came) × (length came ≡ n)
            × Consumes (S.left source.old) (S.left source.new) came) }
        ensures end { IfOk result (λ n. n ≡ 0 → IsAtEnd (S.left source.new)) }
        ensures asked { S.is_call source.old (result_ok result) source.new }
        ensures failed { OnErr result ((octets_of self.new ≡ octets_of self.old) × Keeps (S.left source.old) (S.left source.new)) }
        ensures counted { OnOk result (S.faults source.new ≡ S.faults source.old) }
        ensures later { S.faults source.old ≤ S.faults source.new }
        ensures cause { OnErr result (FailureCountRose (S.faults source.old) (S.faults source.new)) }
    {
        self.move_to_front();
        let count = read_into(source, &mut self.octets, self.end)?;
        self.end += count;
        Ok(count)
    }

    fn move_to_front(&mut self)
        ensures unchanged { octets_of self.new ≡ octets_of self.old }
        ensures front { self.new.start ≡ 0 }
    {
        if self.start > 0 {
            self.octets.copy_within(self.start..self.end, 0);
            self.end -= self.start;
            self.scanned -= self.start;
            self.start = 0;
        }
    }

    /// Removes the first `count` octets from the buffered octets, and returns their index in the buffer, where `slice` can still read them.
    pub(crate) fn skip(&mut self, count: usize) -> usize
        requires { count ≤ length (octets_of self.old) }
        ensures rest { octets_of self.new ≡ drop count (octets_of self.old) }
        ensures skipped { slice_range self.new.octets.items result (result + count) ≡ take count (octets_of self.old) }
        ensures within { result + count ≤ buffer_limit }
    {
        let from = self.start;
        self.start += count;
        self.scanned = self.scanned.max(self.start);
        from
    }

    pub(crate) fn slice(&self, from: usize, to: usize) -> &[u8]
        requires ordered { from ≤ to }
        requires within { to ≤ buffer_limit }
        ensures { result.now ≡ slice_range self.now.octets.items from to }
    {
        &self.octets[from..to]
    }
}

/// Calls the source once to write into `octets` from index `start` on, and returns the number of octets written. It exists for its
/// contract, which says of the whole buffer what that of `take` says of a slice.
fn read_into<S: Source>(source: &mut S, octets: &mut Vec<u8>, start: usize) -> Result<usize, Failed>
    requires { start < vec_len octets.old }
    ensures len { vec_len octets.new ≡ vec_len octets.old }
    ensures front { take start octets.new.items ≡ take start octets.old.items }
    ensures bound { IfOk result (λ n. n + start ≤ vec_len octets.old) }
    ensures came { IfOk result (λ n. Consumes (S.left source.old) (S.left source.new) (slice_range octets.new.items start (start + n))) }
    ensures at_end { IfOk result (λ n. n ≡ 0 → IsAtEnd (S.left source.new)) }
    ensures asked { S.is_call source.old (result_ok result) source.new }
    ensures failed { OnErr result (Keeps (S.left source.old) (S.left source.new)) }
    ensures counted { OnOk result (S.faults source.new ≡ S.faults source.old) }
    ensures later { S.faults source.old ≤ S.faults source.new }
    ensures cause { OnErr result (FailureCountRose (S.faults source.old) (S.faults source.new)) }
{
    source.take(&mut octets[start..])
}

/// Returns the index of the first line feed, if there is one. One that an earlier call has found is at index 0, and takes no search.
fn find_line_feed(octets: &[u8]) -> Option<usize>
    ensures { MatchOption result (IsLine octets.now) (IsFirstLineFeed octets.now) }
{
    match octets {
        [b'\n', ..] => Some(0),
        _ => search_line_feed(octets),
    }
}

/// The index of the first line feed, if there is one. Lines have a few hundred octets: for them, testing 64 octets in each round takes 50
/// instructions a block less than `memchr`, which serves here only for the last octets.
// Inlined, it would keep its callers from being inlined.
#[inline(never)]
fn search_line_feed(octets: &[u8]) -> Option<usize>
    ensures { MatchOption result (IsLine octets.now) (IsFirstLineFeed octets.now) }
{
    let mut from = 0;
    while VECTOR_SIZE <= octets.len() - from {
        let count = count_before_line_feed(&octets[from..]);
        if count < VECTOR_SIZE {
            return Some(from + count);
        }
        from += VECTOR_SIZE;
    }
    match memchr(b'\n', &octets[from..]) {
        Some(at) => Some(from + at),
        None => None,
    }
}

/// The number of octets before the first line feed in the first 64 octets; 64 if they contain none.
#[inline(always)]
fn count_before_line_feed(octets: &[u8]) -> usize
    requires { 64 ≤ length octets.now }
    ensures bound { result ≤ 64 }
    ensures before { IsLine (take result octets.now) }
    ensures found { result < 64 → slice_index octets.now result ≡ 10 }
{
    if !has_line_feed(octets) {
        return VECTOR_SIZE;
    }
    let line_feeds = u8x64::from_slice(octets)
        .simd_eq(u8x64::splat(b'\n'))
        .to_bitmask();
    if line_feeds == 0 {
        VECTOR_SIZE
    } else {
        line_feeds.trailing_zeros() as usize
    }
}

/// Whether the first 64 octets contain a line feed. The compiler vectorises this loop, and then tests all its comparisons at once. A mask
/// of 64 octets in each round was tried and not kept.
#[inline(always)]
fn has_line_feed(octets: &[u8]) -> bool
    requires { 64 ≤ length octets.now }
    ensures { result ≡ false → IsLine (take 64 octets.now) }
{
    let mut found = false;
    for k in 0..VECTOR_SIZE {
        found |= octets[k] == b'\n';
    }
    found
}
