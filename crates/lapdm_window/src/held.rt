//! The messages that a window holds, in a fixed array of buffers. A message is written directly into its buffer; removing the first message
//! rotates the array.

ghost use Rattle.std.specs.Prelude.{◌≡◌, ◌<◌, ◌≤◌, ◌==◌, [], ◌∷◌, ◌++◌, length, map, drop, slice_index_or};
ghost use Rattle.segmenting.specs.Buffers.{octets_in_buffer};

use segmenting::MessageBuffer;
use std::marker::Model;

/// A list of at most eight messages, in the order in which layer 3 sent them.
#[derive(Debug, Drop)]
pub(crate) struct HeldMessageBuffers {
    buffers: [MessageBuffer; 8],
    len: usize,
}

// Contracts treat a `HeldMessageBuffers` value as a list of messages.
impl Model for HeldMessageBuffers {
    ghost use Rattle.std.specs.Prelude.{◌≤◌, map, take};
    ghost use Rattle.segmenting.specs.Buffers.{octets_in_buffer};
    ghost use Rattle.lapdm_window.specs.Held.{HeldMessages};

    ghost Value = { HeldMessages };

    ghost view = { λ h. record { items = map octets_in_buffer (take h.len h.buffers) } };

    ghost invariant = { λ h. h.len ≤ 8 };
}

impl HeldMessageBuffers {
    pub(crate) fn new() -> HeldMessageBuffers
        ensures { result.items ≡ [] }
    {
        HeldMessageBuffers {
            buffers: [MessageBuffer::empty(); 8],
            len: 0,
        }
    }

    pub(crate) fn len(&self) -> usize
        ensures len { result ≡ length self.now.items }
        ensures most { result ≤ 8 }
    {
        self.as_slice().len()
    }

    pub(crate) fn is_empty(&self) -> bool
        ensures { result ≡ (length self.now.items == 0) }
    {
        self.len() == 0
    }

    pub(crate) fn is_full(&self) -> bool
        ensures full { result ≡ (length self.now.items == 8) }
        ensures most { length self.now.items ≤ 8 }
    {
        self.len() == 8
    }

    pub(crate) fn push(&mut self, message: &[u8])
        requires space { length self.old.items < 8 }
        requires fits { length message.now ≤ 255 }
        ensures items { self.new.items ≡ self.old.items ++ message.now ∷ [] }
    {
        let len = self.len;
        self.buffers[len].write(message);
        self.len = len + 1;
    }

    pub(crate) fn remove_first_message(&mut self)
        requires { 1 ≤ length self.old.items }
        ensures items { self.new.items ≡ drop 1 self.old.items }
    {
        let len = self.len;
        self.buffers[0..len].rotate_left(1);
        self.len = len - 1;
    }

    pub(crate) fn first(&self) -> &[u8]
        requires { 1 ≤ length self.now.items }
        ensures { result.now ≡ slice_index_or self.now.items 0 [] }
    {
        self.buffers[0].octets()
    }

    pub(crate) fn as_slice(&self) -> &[MessageBuffer]
        ensures value { map octets_in_buffer result.now ≡ self.now.items }
        ensures most { length result.now ≤ 8 }
    {
        &self.buffers[..self.len]
    }

    pub(crate) fn restore(&mut self, buffers: &[MessageBuffer])
        requires { length buffers.now ≤ 8 }
        ensures items { self.new.items ≡ map octets_in_buffer buffers.now }
    {
        let len = buffers.len();
        self.buffers[0..len].copy_from_slice(buffers);
        self.len = len;
    }
}
