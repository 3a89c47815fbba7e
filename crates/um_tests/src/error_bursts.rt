//! The repair of every error burst that the Fire code can correct.
use fire_repair::{RepairAnswer, repair};
use std::process::Abort;
use std::test::Fail;
use um_block::Bits;

// The 23 octets of a fill frame, and the 5 octets of their CRC.
const FILL_FRAME: [u8; 28] = [
    0x03, 0x03, 0x01, 0x2b, 0x2b, 0x2b, 0x2b, 0x2b, 0x2b, 0x2b, 0x2b, 0x2b, 0x2b, 0x2b, 0x2b, 0x2b,
    0x2b, 0x2b, 0x2b, 0x2b, 0x2b, 0x2b, 0x2b, 0x2c, 0x4e, 0x54, 0x02, 0x33,
];

// Returns whether `repair` restores the word after an error burst: bit `start + i` is inverted for each bit `i` of `shape` that is 1.
fn is_repaired(word: &Bits<224>, start: usize, shape: u32) -> bool {
    let mut wrong = *word;
    let mut places = 0;
    let mut last = 0;
    for i in 0..12 {
        let place = start.wrapping_add(i);
        if (shape >> i) & 1 == 1 && place < 224 {
            wrong.set(place, 1 - wrong.get(place));
            last = place;
            places |= 1 << i;
        }
    }
    let wanted = start.wrapping_add(u32::trailing_zeros(places) as usize);
    match repair(&wrong) {
        RepairAnswer::Repaired {
            word: found,
            first,
            span,
        } => {
            found.as_slice() == word.as_slice()
                && first as usize == wanted
                && (first as usize + span as usize).wrapping_sub(1) == last
        }
        _ => false,
    }
}

#[test]
fn every_error_burst_within_twelve_bits_is_repaired(rt: HostRuntime) -> Result<(), Fail> {
    let mut bits = [0; 224];
    for (i, bit) in bits.iter_mut().enumerate() {
        *bit = (FILL_FRAME[i / 8] >> (i % 8)) & 1;
    }
    let word = Bits::from_slice(&bits).ok_or("bits")?;
    assert!(rt; (0..213).all(|start| (1..4096).all(|shape| is_repaired(&word, start, shape))));
    Ok(())
}
