//! Messages in buffers of fixed size.

ghost use Rattle.std.specs.Prelude.{◌≡◌, ◌≤◌, [], length};
ghost use Rattle.segmenting.specs.Buffers.{octets_in_buffer, message_buffer};

/// A message as plain data, with the memory layout of C. It may be longer than the 251 octets that a link accepts:
/// there is room for 255, so that every `count` of one octet is within the array.
#[repr(C)]
#[derive(Clone, Copy, PartialEq, Eq, Debug)]
pub struct MessageBuffer {
    pub count: u8,
    /// The octets of the message; the octets from index `count` on have no meaning.
    pub octets: [u8; 255],
}

impl MessageBuffer {
    /// Returns an empty message; all octets of its buffer are 0.
    pub fn empty() -> MessageBuffer
        ensures { result ≡ message_buffer [] }
    {
        MessageBuffer {
            count: 0,
            octets: [0; 255],
        }
    }

    pub fn octets(&self) -> &[u8]
        ensures value { result.now ≡ octets_in_buffer self.now }
        ensures most { length result.now ≤ 255 }
    {
        &self.octets[..usize::from(self.count)]
    }

    /// Replaces the message with `octets`, and fills the rest of the buffer with zeros. So the message determines the whole buffer.
    pub fn write(&mut self, octets: &[u8])
        requires { length octets.now ≤ 255 }
        ensures { self.new ≡ message_buffer octets.now }
    {
        let count = octets.len();
        self.octets[..count].copy_from_slice(octets);
        self.octets[count..].fill(0);
        self.count = count as u8;
    }
}
