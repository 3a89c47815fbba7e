//! Exports the state of a window as plain data, and restores a window from it.

ghost use Rattle.std.specs.Prelude.{◌≡◌, ◌↔◌, ◌⊎◌, ◌+◌, ◌%◌, ◌^◌, ◌<◌, ◌≤◌, false, length, map};
ghost use Rattle.std.specs.Prelude.{slice_index_or, [], All, IsTrue};
ghost use Rattle.segmenting.specs.lapdm_frame.Layout.{n201};
ghost use Rattle.segmenting.specs.Segments.{IsValidMessage, number_of_segments, max_message_octets, max_segments_per_message};
ghost use Rattle.segmenting.specs.Buffers.{octets_in_buffer};
ghost use Rattle.lapdm_window.specs.Ends.{EndpointState};
ghost use Rattle.lapdm_window.specs.Parts.{values_of, values_of_parts, ValuesRepresent, SomeWindowHasValues, AreValidHeldMessages};
ghost use Rattle.lapdm_window.specs.Parts.{AreConsistent};
ghost use Rattle.lapdm_window.specs.Abstraction.{Represents};

use super::Window;
use segmenting::{Channel, Joiner, LONGEST_MESSAGE, MessageBuffer, ReassemblyState};

/// The state of a window as plain data, with borrowed messages and octets.
#[derive(Clone, Copy, Debug)]
pub struct LapdmWindowView<'a> {
    pub channel: Channel,
    /// The messages that are not fully acknowledged, in the order in which layer 3 sent them.
    pub held: &'a [MessageBuffer],
    /// The index of the outstanding segment in the first held message or, if none is outstanding, the index of the next segment to send.
    pub segment_index: usize,
    pub vs: u8,
    pub va: u8,
    pub vr: u8,
    /// The number of fully acknowledged messages.
    pub acked_messages: u64,
    /// The reject condition: a REJ was sent, and no segment has been accepted since.
    pub rejecting: bool,
    /// How many times the outstanding segment has been repeated.
    pub retries: u8,
    /// The octets held for reassembly; `part` says which part of a message they form.
    pub reassembly: &'a [u8],
    /// The part of a message that the octets in `reassembly` form.
    pub part: ReassemblyState,
}

impl LapdmWindowView<'_> {
    // Returns whether a window that represents an endpoint can have this state.
    fn are_consistent(&self) -> bool
        ensures consistent { IsTrue result ↔ AreConsistent (values_of_parts self.now) }
        ensures counted { self.now.acked_messages < 2 ^ 64 }
    {
        // The prover needs this binding to know that `done` is less than 2^64.
        let done = self.acked_messages;
        if !are_valid_held_messages(self.held)
            || self.segment_index >= first_message_segment_count(self.held, self.channel)
        {
            return false;
        }
        if !is_window_of_one(self.vs, self.va, self.held)
            || self.reassembly.len() > LONGEST_MESSAGE
        {
            return false;
        }
        if self.va > 7 || self.vr > 7 {
            return false;
        }
        if self.vs == self.va && self.retries != 0 {
            return false;
        }
        done != 0 || usize::from(self.va) == self.segment_index % 8
    }

    /// Returns whether some window has this state.
    pub fn is_window(&self) -> bool
        ensures { IsTrue result ↔ SomeWindowHasValues (values_of_parts self.now) }
    {
        self.are_consistent() && Joiner::can_hold(self.reassembly, self.part)
    }
}

fn is_window_of_one(vs: u8, va: u8, held_messages: &[MessageBuffer]) -> bool
    ensures { IsTrue result ↔ ((vs ≡ va)
        ⊎ ((vs ≡ (va + 1) % 8) × (1 ≤ length (map octets_in_buffer held_messages.now)))) }
{
    vs == va || (vs == (va % 8 + 1) % 8 && !held_messages.is_empty())
}

fn are_valid_held_messages(messages: &[MessageBuffer]) -> bool
    ensures { IsTrue result ↔ AreValidHeldMessages (map octets_in_buffer messages.now) }
{
    if messages.len() > 8 {
        return false;
    }
    are_valid_messages(messages)
}

fn are_valid_messages(messages: &[MessageBuffer]) -> bool
    ensures { IsTrue result ↔ All (λ message. IsValidMessage (octets_in_buffer message)) messages.now }
{
    messages.iter().all(|message| is_valid_message(message))
}

fn is_valid_message(message: &MessageBuffer) -> bool
    ensures { IsTrue result ↔ IsValidMessage (octets_in_buffer message.now) }
{
    let octets = message.octets();
    !octets.is_empty() && octets.len() <= LONGEST_MESSAGE
}

// Returns the number of segments of the first message, or 1 if there is no message.
fn first_message_segment_count(held_messages: &[MessageBuffer], channel: Channel) -> usize
    ensures { result ≡ number_of_segments (n201 channel) (slice_index_or (map octets_in_buffer held_messages.now) 0 []) }
{
    match held_messages.first() {
        Some(message) => segment_count(message.octets(), channel),
        None => 1,
    }
}

fn segment_count(message: &[u8], channel: Channel) -> usize
    ensures { result ≡ number_of_segments (n201 channel) message.now }
{
    if message.is_empty() {
        return 1;
    }
    (message.len() - 1) / channel.n201() + 1
}

impl Window {
    pub fn parts(&self) -> LapdmWindowView<'_>
        ensures values { values_of_parts result ≡ values_of self.now }
        ensures size { length result.held.now ≤ 8 }
        ensures place { result.segment_index < max_segments_per_message result.channel }
        ensures most { length result.reassembly.now ≤ max_message_octets }
    {
        LapdmWindowView {
            channel: self.channel,
            held: self.held.as_slice(),
            segment_index: self.segment_index,
            vs: self.vs,
            va: self.va,
            vr: self.vr,
            acked_messages: self.acked_messages,
            rejecting: self.rejecting,
            retries: self.retries,
            reassembly: self.joiner.octets(),
            part: self.joiner.part(),
        }
    }

    /// Restores a window from its state. Returns false and changes nothing if no window can have this state.
    pub fn restore(&mut self, parts: &LapdmWindowView<'_>) -> bool
        ensures same { IsTrue result → values_of self.new ≡ values_of_parts parts.now }
        ensures represents { IsTrue result → (e : EndpointState) → ValuesRepresent (values_of_parts parts.now) e
            → Represents self.new e }
        ensures valid { IsTrue result ↔ SomeWindowHasValues (values_of_parts parts.now) }
        ensures refused { result ≡ false → self.new ≡ self.old }
    {
        if !parts.are_consistent() || !self.joiner.restore(parts.reassembly, parts.part) {
            return false;
        }
        self.held.restore(parts.held);
        self.channel = parts.channel;
        self.segment_index = parts.segment_index;
        self.vs = parts.vs;
        self.va = parts.va;
        self.vr = parts.vr;
        self.acked_messages = parts.acked_messages;
        self.rejecting = parts.rejecting;
        self.retries = parts.retries;
        true
    }
}
