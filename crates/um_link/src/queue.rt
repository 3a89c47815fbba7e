//! Adds blocks to a queue, and removes them.
ghost use Rattle.std.specs.Prelude.{◌≡◌, ◌+◌, ◌<◌, ◌≤◌, List, All, Some, map, length, ◌∷◌};
ghost use Rattle.um_block.specs.bit_blocks.Bits.{AllBits};
ghost use Rattle.um_block.specs.conv_code.Likelihood.{AllSoftBits};
ghost use Rattle.um_block.specs.Received.{soft_bits};
ghost use Rattle.um_air.specs.Air.{Block, with_bit_inverted, with_bits_inverted};
ghost use Rattle.um_link.specs.Coded.{AppendsBlocks};
ghost use Rattle.um_block.specs.Tallies.{counter_plus_one, counter_plus};
ghost use Rattle.um_link.specs.Queues.{AreBitIndices, IsValidQueue, ReceivesOldestBlock};

use circular_buffer::HeapCircularBuffer;
use um_block::{BLOCK_OCTETS, BURST_BITS, Radio, Received, soften_block};

/// The capacity of a queue, in blocks. A step is refused if more than 62 wait, since it may add two.
pub(crate) const QUEUE_CAPACITY: usize = 64;

/// Codes each frame as a block and appends it to the queue.
pub(crate) fn send_frames<R: Radio>(
    radio: &mut R,
    way: &mut HeapCircularBuffer<[[u8; BURST_BITS]; 4]>,
    frames: &[[u8; BLOCK_OCTETS]],
    tsc: u8,
)
    requires tsc { tsc ≤ 7 }
    requires way { IsValidQueue way.old }
    requires space { length way.old.items + length frames.now ≤ QUEUE_CAPACITY }
    ensures appends { AppendsBlocks tsc frames.now way.old.items way.new.items }
    ensures way { IsValidQueue way.new }
    ensures sent { R.sent radio.new ≡ counter_plus (length frames.now) (R.sent radio.old) }
    ensures heard { R.heard radio.new ≡ R.heard radio.old }
{
    for octets in frames {
        way.push_back(radio.send(octets, tsc));
    }
}

/// Removes the oldest block from the queue, inverts the given bits, and receives it. Overwrites the buffer for soft values.
pub(crate) fn receive_oldest_block<R: Radio>(
    radio: &mut R,
    way: &mut HeapCircularBuffer<[[u8; BURST_BITS]; 4]>,
    inverted_bits: &[u16],
    soft: &mut [[i8; BURST_BITS]; 4],
    received: &mut Option<Received>,
)
    requires way { IsValidQueue way.old }
    requires some { 0 < length way.old.items }
    requires places { AreBitIndices inverted_bits.now }
    ensures received { (report : Received) × (received.new ≡ Some report)
        × ReceivesOldestBlock inverted_bits.now way.old.items report way.new.items }
    ensures way { IsValidQueue way.new }
    ensures heard { R.heard radio.new ≡ counter_plus_one (R.heard radio.old) }
    ensures sent { R.sent radio.new ≡ R.sent radio.old }
{
    write_oldest_as_soft_values(way, inverted_bits, soft);
    drop_oldest_block(way);
    *received = Some(radio.receive(soft));
}

/// Writes the oldest block of the queue as soft values 127 and -127, with the given bits inverted. If there are none, the block is read
/// where it stands, without a copy.
fn write_oldest_as_soft_values(
    queue: &HeapCircularBuffer<[[u8; BURST_BITS]; 4]>,
    inverted_bits: &[u16],
    soft: &mut [[i8; BURST_BITS]; 4],
)
    requires way { IsValidQueue queue.now }
    requires some { 0 < length queue.now.items }
    requires places { AreBitIndices inverted_bits.now }
    ensures value { (block : Block) (others : List Block) → queue.now.items ≡ block ∷ others
        → soft.new ≡ map soft_bits (with_bits_inverted inverted_bits.now block) }
    ensures soft { All AllSoftBits soft.new }
{
    let first = queue.front().unwrap();
    if inverted_bits.is_empty() {
        soften_block(first, soft);
    } else {
        let mut block = *first;
        invert_bits(&mut block, inverted_bits);
        soften_block(&block, soft);
    }
}

// If the queue becomes empty, `clear` makes it start at its first slot again, so that the next block reuses recently used memory.
pub(crate) fn drop_oldest_block(way: &mut HeapCircularBuffer<[[u8; BURST_BITS]; 4]>)
    requires way { IsValidQueue way.old }
    requires some { 0 < length way.old.items }
    ensures first { (block : Block) × (way.old.items ≡ block ∷ way.new.items) }
    ensures way { IsValidQueue way.new }
{
    if way.len() == 1 {
        way.clear();
    } else {
        way.pop_front();
    }
}

/// Inverts the bits of the block at these indices. An index that occurs twice leaves its bit unchanged.
fn invert_bits(block: &mut [[u8; BURST_BITS]; 4], places: &[u16])
    requires bits { All AllBits block.old }
    requires places { AreBitIndices places.now }
    ensures flipped { block.new ≡ with_bits_inverted places.now block.old }
    ensures bits { All AllBits block.new }
{
    for place in places {
        invert_bit_at(block, *place);
    }
}

fn invert_bit_at(block: &mut [[u8; BURST_BITS]; 4], bit_index: u16)
    requires bits { All AllBits block.old }
    requires place { bit_index < 592 }
    ensures flipped { block.new ≡ with_bit_inverted bit_index block.old }
    ensures bits { All AllBits block.new }
{
    let burst = usize::from(bit_index) / BURST_BITS;
    let bit = usize::from(bit_index) % BURST_BITS;
    block[burst][bit] = 1 - block[burst][bit];
}
