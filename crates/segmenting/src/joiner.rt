//! Reassembles messages from segments.

ghost use Rattle.std.specs.Prelude.{◌≡◌, ◌≤◌, length, take};
ghost use Rattle.lapdm_frame.specs.Layout.{largest_n201};
ghost use Rattle.segmenting.specs.Segments.{max_message_octets};
ghost use Rattle.segmenting.specs.declared.joiner.ReassemblyState.TheVariants.{Whole, Discarding};

use crate::LONGEST_MESSAGE;

mod parts;

/// What a `Joiner` returns when it takes a segment.
#[derive(Clone, Copy, PartialEq, Eq, Debug)]
pub enum Joined {
    /// The message continues in the next segment.
    More,
    /// The message is complete, and `Joiner::message` returns it.
    Whole,
    /// The message has more than 251 octets and is discarded.
    Oversize,
}

/// The part of a message that a `Joiner` holds.
#[derive(Clone, Copy, PartialEq, Eq, Debug)]
pub enum ReassemblyState {
    /// The first octets of an incomplete message.
    Open,
    /// A complete message, which has been delivered.
    Whole,
    /// No octets: the rest of an oversize message is being discarded.
    Discarding,
}

/// Reassembles messages of at most 251 octets.
#[derive(Debug, Drop)]
pub struct Joiner {
    octets: [u8; LONGEST_MESSAGE],
    len: usize,
    part: ReassemblyState,
    ghost in_range: { len ≤ max_message_octets },
    ghost empty_if_discarding: { part ≡ Discarding → len ≡ 0 },
    ghost some_if_whole: { part ≡ Whole → 1 ≤ length (take len octets) },
}

impl Joiner {
    ghost use Rattle.std.specs.Prelude.{◌+◌, ◌<◌, List, [], ◌∷◌, ◌++◌, IfSome, MatchOption};
    ghost use Rattle.segmenting.specs.Segments.{Segment};
    ghost use Rattle.segmenting.specs.Joining.{reassembly_result, partial_message, completed_message};
    ghost use Rattle.segmenting.specs.Joiners.{HasTakenSegments};

    /// Creates a `Joiner` that has not taken any segments.
    pub fn new() -> Joiner
        ensures { HasTakenSegments result [] }
    {
        Joiner {
            octets: [0; LONGEST_MESSAGE],
            len: 0,
            part: ReassemblyState::Open,
        }
    }

    /// Takes the next segment of a message. If the message becomes too long, returns `Oversize` for this segment and for each later one up
    /// to the last of the message (`more` is false), and discards them all.
    pub fn take(&mut self, piece: &[u8], more: bool) -> Joined
        requires some { 1 ≤ length piece.now }
        requires most { length piece.now ≤ largest_n201 }
        ensures answer { (taken : List Segment) → HasTakenSegments self.old taken
            → result ≡ reassembly_result taken (piece.now, more) }
        ensures after { (taken : List Segment) → HasTakenSegments self.old taken
            → HasTakenSegments self.new (taken ++ (piece.now, more) ∷ []) }
    {
        let Some(start) = self.write_position_for(piece) else {
            // First `Open`, of which the ghost fields say nothing, so that they hold throughout.
            self.part = ReassemblyState::Open;
            self.len = 0;
            self.part = if more {
                ReassemblyState::Discarding
            } else {
                ReassemblyState::Open
            };
            return Joined::Oversize;
        };
        let end = start + piece.len();
        self.octets[start..end].copy_from_slice(piece);
        self.len = end;
        if more {
            self.part = ReassemblyState::Open;
            return Joined::More;
        }
        self.part = ReassemblyState::Whole;
        Joined::Whole
    }

    /// Returns the message that the last segment completed, or no octets if it completed none.
    pub fn message(&self) -> &[u8]
        ensures completed_message { (taken : List Segment) → HasTakenSegments self.now taken
            → result.now ≡ completed_message taken }
        ensures most { length result.now ≤ max_message_octets }
    {
        match self.part {
            ReassemblyState::Whole => &self.octets[..self.len],
            ReassemblyState::Open | ReassemblyState::Discarding => &[],
        }
    }

    fn write_position_for(&self, segment: &[u8]) -> Option<usize>
        ensures space { IfSome result (λ start. start + length segment.now ≤ max_message_octets) }
        ensures place { (taken : List Segment) → HasTakenSegments self.now taken → MatchOption result
            (max_message_octets < length (partial_message taken ++ segment.now))
            (λ start. take start self.now.octets ≡ partial_message taken) }
    {
        let start = match self.part {
            ReassemblyState::Open => self.len,
            ReassemblyState::Whole => 0,
            ReassemblyState::Discarding => return None,
        };
        if segment.len() > LONGEST_MESSAGE - start {
            return None;
        }
        Some(start)
    }
}
