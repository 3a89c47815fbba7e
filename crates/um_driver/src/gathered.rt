//! An output buffer, which collects several answers so that one call can write them.
ghost use Rattle.std.specs.Prelude.{◌≡◌, ◌≤◌, ◌+◌, [], ◌++◌, length, nat_le, OnOk, false, IsTrue};
ghost use Rattle.um_driver.specs.Writing.{SinkTakesTextIfOk, BuffersUnwrittenText, BuffersTextIfOk, CountsWriteFailure};

use crate::writing::put_all;
use std::marker::Model;
use um_io::{Failed, Sink};

/// The capacity of the output buffer in octets.
const BUFFER_SIZE: usize = 16384;

/// A buffer for output octets that have not been written to the sink yet.
#[derive(Drop)]
pub(crate) struct OutputBuffer {
    buffer: [u8; BUFFER_SIZE],
    length: usize,
}

// In contracts, an `OutputBuffer` stands for the list of its octets.
impl Model for OutputBuffer {
    ghost use Rattle.std.specs.Prelude.{ℕ, ◌≤◌, List, take};

    ghost Value = { List ℕ };

    ghost view = { λ g. take g.length g.buffer };

    ghost invariant = { λ g. g.length ≤ 16384 };
}

impl OutputBuffer {
    pub(crate) fn new() -> OutputBuffer
        ensures { result ≡ [] }
    {
        OutputBuffer {
            buffer: [0; BUFFER_SIZE],
            length: 0,
        }
    }

    fn has_room(&self, count: usize) -> bool
        requires { count ≤ 4096 }
        ensures { result ≡ nat_le (length self.now + count) 16384 }
    {
        self.length + count <= BUFFER_SIZE
    }

    fn push(&mut self, octets: &[u8])
        requires { length self.old + length octets.now ≤ 16384 }
        ensures { self.new ≡ self.old ++ octets.now }
    {
        let end = self.length + octets.len();
        self.buffer[self.length..end].copy_from_slice(octets);
        self.length = end;
    }

    fn octets(&self) -> &[u8]
        ensures { result.now ≡ self.now }
    {
        &self.buffer[..self.length]
    }

    /// Writes all octets in the buffer to `output`. If this succeeds, the buffer is empty.
    // Cold and not inlined: it runs once a reading, or when the buffer is full, and is kept out of the way of each line.
    #[cold]
    #[inline(never)]
    pub(crate) fn flush<K: Sink>(&mut self, output: &mut K) -> Result<(), Failed>
        ensures taken { SinkTakesTextIfOk (K.taken output.old) (K.taken output.new) result self.old }
        ensures empty { OnOk result (self.new ≡ []) }
        ensures counted { CountsWriteFailure result (K.faults output.old) (K.faults output.new) }
    {
        put_all(output, self.octets())?;
        self.length = 0;
        Ok(())
    }

    pub(crate) fn flush_if<K: Sink>(&mut self, due: bool, output: &mut K) -> Result<(), Failed>
        ensures gathers { BuffersTextIfOk result self.old self.new (K.taken output.old) (K.taken output.new) }
        ensures empty { IsTrue due → OnOk result (self.new ≡ []) }
        ensures stays { due ≡ false → self.new ≡ self.old }
        ensures counted { CountsWriteFailure result (K.faults output.old) (K.faults output.new) }
    {
        if due { self.flush(output) } else { Ok(()) }
    }

    /// Appends `octets` to the buffer. If they do not fit, first writes the buffered octets to `output`. An answer without octets, as to
    /// three of four bursts, is not copied.
    pub(crate) fn add<K: Sink>(&mut self, octets: &[u8], output: &mut K) -> Result<(), Failed>
        requires { length octets.now ≤ 4096 }
        ensures gathers { BuffersTextIfOk result (self.old ++ octets.now) self.new (K.taken output.old) (K.taken output.new) }
        ensures counted { CountsWriteFailure result (K.faults output.old) (K.faults output.new) }
    {
        if octets.is_empty() {
            return Ok(());
        }
        let full = !self.has_room(octets.len());
        self.flush_if(full, output)?;
        self.push(octets);
        Ok(())
    }

    pub(crate) fn add_and_flush<K: Sink>(
        &mut self,
        octets: &[u8],
        output: &mut K,
    ) -> Result<(), Failed>
        requires { length octets.now ≤ 4096 }
        ensures taken { SinkTakesTextIfOk (K.taken output.old) (K.taken output.new) result (self.old ++ octets.now) }
        ensures counted { CountsWriteFailure result (K.faults output.old) (K.faults output.new) }
    {
        self.add(octets, output)?;
        self.flush(output)
    }
}
