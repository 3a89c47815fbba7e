//! A layer 3 message.
ghost use Rattle.std.specs.Prelude.{◌≡◌, ◌≤◌, length};
ghost use Rattle.segmenting.specs.Segments.{max_message_octets};

use segmenting::LONGEST_MESSAGE;
use std::marker::Model;

/// A layer 3 message of at most 251 octets, stored inline.
#[derive(Debug, Drop)]
pub struct Message {
    buffer: [u8; LONGEST_MESSAGE],
    len: usize,
}

// Contracts treat a `Message` value as a list of octets.
impl Model for Message {
    ghost use Rattle.std.specs.Prelude.{◌≤◌, List, ℕ, take};
    ghost use Rattle.segmenting.specs.Segments.{max_message_octets};

    ghost Value = { List ℕ };

    ghost view = { λ m. take m.len m.buffer };

    ghost invariant = { λ m. m.len ≤ max_message_octets };
}

// The default message, which is empty, fills the unused elements of lists in other crates.
impl Default for Message {
    ghost use Rattle.std.specs.Prelude.{[]};

    fn default() -> Message
        ensures { result ≡ [] }
    {
        Message {
            buffer: [0; LONGEST_MESSAGE],
            len: 0,
        }
    }
}

impl Message {
    pub fn new(octets: &[u8]) -> Message
        requires { length octets.now ≤ max_message_octets }
        ensures { result ≡ octets.now }
    {
        let len = octets.len();
        let mut held = [0; LONGEST_MESSAGE];
        held[..len].copy_from_slice(octets);
        Message { buffer: held, len }
    }

    /// Replaces the message; copies only `octets`, not the whole buffer.
    pub fn write(&mut self, octets: &[u8])
        requires { length octets.now ≤ max_message_octets }
        ensures { self.new ≡ octets.now }
    {
        let len = octets.len();
        self.buffer[0..len].copy_from_slice(octets);
        self.len = len;
    }

    pub fn octets(&self) -> &[u8]
        ensures value { result.now ≡ self.now }
        ensures most { length result.now ≤ max_message_octets }
    {
        &self.buffer[..self.len]
    }
}
