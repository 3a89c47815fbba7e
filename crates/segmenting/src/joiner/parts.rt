//! Exports the state of a joiner as plain data, and restores a joiner from it.

ghost use Rattle.std.specs.Prelude.{◌≡◌, ◌↔◌, ◌≤◌, false, List, [], length, IsTrue};
ghost use Rattle.segmenting.specs.Joiners.{HasTakenSegments, IsPossiblePart};
ghost use Rattle.segmenting.specs.Segments.{Segment, max_message_octets};
ghost use Rattle.segmenting.specs.Parts.{values_of, SomeJoinerHasValues};

use super::{Joiner, ReassemblyState};
use crate::LONGEST_MESSAGE;

impl Joiner {
    /// Returns the octets that the `Joiner` holds for reassembly.
    pub fn octets(&self) -> &[u8]
        ensures value { result.now ≡ (values_of self.now).octets }
        ensures most { length result.now ≤ max_message_octets }
    {
        &self.octets[..self.len]
    }

    /// Returns which part of a message these octets form.
    pub fn part(&self) -> ReassemblyState
        ensures { result ≡ (values_of self.now).part }
    {
        self.part
    }

    /// Returns whether some joiner holds these octets, as this part of a message.
    pub fn can_hold(octets: &[u8], part: ReassemblyState) -> bool
        ensures { IsTrue result ↔ SomeJoinerHasValues (record { octets = octets.now; part = part }) }
    {
        octets.len() <= LONGEST_MESSAGE && is_possible_part(part, octets)
    }

    /// Restores the state of a joiner: the octets that it holds, and the part of a message that they form. Returns false and changes
    /// nothing if no joiner can be in this state.
    pub fn restore(&mut self, octets: &[u8], part: ReassemblyState) -> bool
        ensures same { IsTrue result
            → values_of self.new ≡ record { octets = octets.now; part = part } }
        ensures valid { IsTrue result ↔ SomeJoinerHasValues (record { octets = octets.now; part = part }) }
        ensures refused { result ≡ false → self.new ≡ self.old }

        // At least one list of segments leads a joiner to this state.
        ensures taken { IsTrue result → (taken : List Segment) × HasTakenSegments self.new taken }
    {
        if octets.len() > LONGEST_MESSAGE || !is_possible_part(part, octets) {
            return false;
        }
        let len = octets.len();
        // First `Open`, of which the ghost fields say nothing, so that they hold throughout.
        self.part = ReassemblyState::Open;
        self.octets[0..len].copy_from_slice(octets);
        self.len = len;
        self.part = part;
        true
    }
}

fn is_possible_part(part: ReassemblyState, octets: &[u8]) -> bool
    ensures { IsTrue result ↔ IsPossiblePart part octets.now }
{
    match part {
        ReassemblyState::Open => true,
        ReassemblyState::Whole => !octets.is_empty(),
        ReassemblyState::Discarding => octets.is_empty(),
    }
}
