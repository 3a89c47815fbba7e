//! A line reader, which divides an input into lines and uses one buffer of fixed size.
ghost use Rattle.std.specs.Prelude.{◌≡◌, ◌≤◌, ◌<◌, ◌+◌, ◌-◌, ◌↔◌, ℕ, List, Bool, true, false, None, []};
ghost use Rattle.std.specs.Prelude.{◌++◌, length, MatchBool, MatchOption, IfOk, IfSome, OnOk, OnErr, IsTrue, ◌⊎◌};
ghost use Rattle.std.specs.Borrow.{sem};
ghost use Rattle.um_io.specs.SourceCalls.{StopsAtEndOrFailure, IsOneSourceCall};
ghost use Rattle.um_io.specs.Streams.{FailureCountRose};
ghost use Rattle.um_io.specs.SearchResults.{IsFoundWithoutLineFeed, HasNoResultYet};

use crate::buffer::{Buffer, LINE_LIMIT};
use crate::streams::{Failed, NoMemory, Source};
use std::alloc::Global;
use std::marker::Model;

/// The maximum number of octets in an input, 64 MiB.
const INPUT_LIMIT: u64 = 67_108_864;

/// The result of one call of a line reader.
#[derive(Clone, Copy, Debug, PartialEq, Eq)]
pub enum Next<'a> {
    /// The next line, without its line feed.
    Line(&'a [u8]),
    /// The input has ended.
    End,
    /// The next line has more than 4,096 octets.
    Long,
    /// The input has more than 67,108,864 octets.
    TooMany,
    /// A read from the source failed.
    Failed,
}

/// What a line reader finds in its buffered octets.
#[derive(Clone, Copy)]
enum LineSearchResult {
    /// A line of `length` octets, or of `with_feed` octets together with its line feed, if it has one.
    Line { length: usize, with_feed: usize },
    /// The end of the input: no octets remain.
    NoOctets,
    LineTooLong,
    /// No line feed within the input limit, but octets past that limit.
    PastInputLimit,
}

/// Reads the lines of an input.
#[derive(Debug, Drop)]
pub struct Lines {
    buffer: Buffer,
    line_feed: Option<usize>,
    octet_count: u64,
    number: u64,
    ended: bool,
    is_over: bool,
}

// `line_feed` is the index of the first line feed if it is known, so that `next` does not search again after `is_ready`.
impl Model for Lines {
    ghost use Rattle.std.specs.Prelude.{◌≤◌, ◌-◌, take, IfSome};
    ghost use Rattle.um_io.specs.Buffer.{octets_of};
    ghost use Rattle.um_io.specs.Lines.{IsFirstLineFeed};
    ghost use Rattle.um_io.specs.Reading.{ReaderState, reader_holding, input_limit};

    ghost Value = { ReaderState };

    ghost view = { λ s. reader_holding (octets_of s.buffer) s.octet_count s.number s.ended s.is_over };

    ghost invariant = { λ s. (s.octet_count ≤ input_limit) × (s.number ≤ s.octet_count)
        × IfSome s.line_feed (IsFirstLineFeed (take (input_limit - s.octet_count) (octets_of s.buffer))) };
}

impl Lines {
    ghost use Rattle.um_io.specs.Lines.{IsLine, IsFirstLineFeed};
    ghost use Rattle.um_io.specs.Reading.{new_reader, IsValidReader, NeedsMoreOctets, IsResultReady, NextResultNeedsRead, buffer_limit};
    ghost use Rattle.um_io.specs.SearchResults.{IsFoundInBuffer, IsReadResult, IsSearchResult};
    ghost use Rattle.um_io.specs.Next.{LineBorrowEnds, CountsReadFailure};

    /// Creates a reader that has read nothing, and allocates all its memory.
    pub fn new(alloc: Global) -> Result<Lines, NoMemory>
        ensures { IfOk result (λ lines. lines ≡ new_reader) }
    {
        Ok(Lines {
            buffer: Buffer::new(alloc)?,
            line_feed: None,
            octet_count: 0,
            number: 0,
            ended: false,
            is_over: false,
        })
    }

    /// The number of the last line returned, counted from 1; 0 before the first line.
    pub fn number(&self) -> u64
        ensures { result ≡ self.now.line_count }
    {
        self.number
    }

    /// Whether `next` can return its result without a read from the source.
    pub fn is_ready(&mut self) -> bool
        ensures unchanged { self.new ≡ self.old }
        ensures ready { MatchBool result (IsResultReady self.old) (NextResultNeedsRead self.old) }
    {
        self.is_over || self.find_in_held_octets().is_some()
    }

    fn octets_within_limit(&self) -> usize
        ensures within { result ≡ length self.now.held }
        ensures space { result ≤ buffer_limit }
    {
        let left = INPUT_LIMIT - self.octet_count;
        left.min(self.buffer.len() as u64) as usize
    }

    /// The index of the first line feed among the buffered octets within the input limit.
    fn first_line_feed(&mut self) -> Option<usize>
        ensures unchanged { self.new ≡ self.old }
        ensures found { MatchOption result (IsLine self.old.held) (IsFirstLineFeed self.old.held) }
        ensures space { IfSome result (λ at. at < buffer_limit) }
    {
        match self.line_feed {
            None => self.find_line_feed(),
            known => known,
        }
    }

    fn find_line_feed(&mut self) -> Option<usize>
        ensures unchanged { self.new ≡ self.old }
        ensures found { MatchOption result (IsLine self.old.held) (IsFirstLineFeed self.old.held) }
        ensures space { IfSome result (λ at. at < buffer_limit) }
    {
        let left = INPUT_LIMIT - self.octet_count;
        match self.buffer.first_line_feed() {
            Some(at) if (at as u64) < left => {
                self.line_feed = Some(at);
                Some(at)
            }
            _ => None,
        }
    }

    /// What the reader finds in its buffered octets, or `None` if it must read more octets first.
    fn find_in_held_octets(&mut self) -> Option<LineSearchResult>
        ensures unchanged { self.new ≡ self.old }
        ensures found { MatchOption result (NeedsMoreOctets self.old) (IsFoundInBuffer self.old) }
    {
        if let Some(at) = self.first_line_feed() {
            return Some(LineSearchResult::Line {
                length: at,
                with_feed: at + 1,
            });
        }
        let octets_within_limit = self.octets_within_limit();
        find_without_line_feed(
            octets_within_limit,
            self.buffer.len() - octets_within_limit,
            self.ended,
        )
    }

    /// Reads from the source once. A read that returns no octets marks the end of the input.
    // Cold and not inlined: it runs once a reading, and is kept out of the way of each line.
    #[cold]
    #[inline(never)]
    fn read<S: Source>(&mut self, source: &mut S) -> Result<(), Failed>
        requires { NeedsMoreOctets self.old }
        ensures read { IsReadResult self.old self.new (S.left source.old) (S.left source.new) result }
        ensures asked { IsOneSourceCall S.is_call source.old source.new self.new.ended result }
        ensures valid { IsValidReader self.new }
        ensures counted { OnOk result (S.faults source.new ≡ S.faults source.old) }
        ensures later { S.faults source.old ≤ S.faults source.new }
        ensures cause { OnErr result (FailureCountRose (S.faults source.old) (S.faults source.new)) }
    {
        self.line_feed = None;
        let count = self.buffer.read(source)?;
        self.ended = count == 0;
        Ok(())
    }

    /// Reads from the source until the buffered octets determine the result, and returns it.
    #[inline(always)]
    fn find_line<S: Source>(&mut self, source: &mut S) -> Result<LineSearchResult, Failed>
        ensures found { IsSearchResult self.old self.new (S.left source.old) (S.left source.new) result }
        ensures source_unchanged { NeedsMoreOctets self.old ⊎ (source.new ≡ source.old) }
        ensures asked { StopsAtEndOrFailure S.is_call source.old source.new }
        ensures counted { OnOk result (S.faults source.new ≡ S.faults source.old) }
        ensures later { S.faults source.old ≤ S.faults source.new }
        ensures cause { OnErr result (FailureCountRose (S.faults source.old) (S.faults source.new)) }
    {
        loop {
            if let Some(found) = self.find_in_held_octets() {
                return Ok(found);
            }
            self.read(source)?;
        }
    }

    /// Returns the next line, or the reason why there is none. Reads from the source only if necessary.
    ///
    /// After `Long`, `TooMany` or `Failed`, every further result is `End`. A source that has reached its end is not called again.
    #[inline(always)]
    pub fn next<S: Source>(&mut self, source: &mut S) -> Next<'_>
        ensures* ends { sem 𝓛 (LineBorrowEnds self.entry (S.left source.old) (S.left source.new) result) }
        ensures source_unchanged { IsResultReady self.old → source.new ≡ source.old }
        ensures asked { StopsAtEndOrFailure S.is_call source.old source.new }
        ensures failed { CountsReadFailure (S.faults source.old) (S.faults source.new) result }
    {
        if self.is_over {
            return Next::End;
        }
        match self.find_line(source) {
            Ok(LineSearchResult::Line { length, with_feed }) => {
                let from = self.buffer.skip(with_feed);
                self.line_feed = None;
                self.octet_count += with_feed as u64;
                self.number += 1;
                Next::Line(self.buffer.slice(from, from + length))
            }
            Ok(LineSearchResult::NoOctets) => Next::End,
            Ok(LineSearchResult::LineTooLong) => {
                self.is_over = true;
                Next::Long
            }
            Ok(LineSearchResult::PastInputLimit) => {
                self.is_over = true;
                Next::TooMany
            }
            Err(_) => {
                self.is_over = true;
                Next::Failed
            }
        }
    }
}

/// Returns what a reader finds if it buffers this many octets within the input limit, without a line feed, and this many past that limit;
/// `None` if it must read more octets first.
fn find_without_line_feed(
    octets_within_limit: usize,
    octets_past_limit: usize,
    ended: bool,
) -> Option<LineSearchResult>
    ensures { MatchOption result (HasNoResultYet octets_within_limit octets_past_limit ended)
        (IsFoundWithoutLineFeed octets_within_limit octets_past_limit ended) }
{
    if octets_within_limit > LINE_LIMIT {
        Some(LineSearchResult::LineTooLong)
    } else if octets_past_limit > 0 {
        Some(LineSearchResult::PastInputLimit)
    } else if !ended {
        None
    } else if octets_within_limit > 0 {
        Some(LineSearchResult::Line {
            length: octets_within_limit,
            with_feed: octets_within_limit,
        })
    } else {
        Some(LineSearchResult::NoOctets)
    }
}
