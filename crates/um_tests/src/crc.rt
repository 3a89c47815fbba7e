//! The check bits of blocks and of synchronisation and access bursts, tested on values computed by hand.
use fire_code::{rach_parity, sch_parity, xcch_parity, xcch_parity_of_octets};
use std::process::Abort;
use std::test::Fail;
use um_block::{
    BLOCK_BITS, BLOCK_OCTETS, Bits, from_octets, rach_holds, sch_holds, to_octets, xcch_holds,
};

// The places of the 0 bits in the CRC of a block whose last bit alone is 1: the generator is D^40 + D^26 + D^23 + D^17 + D^3 + 1, and the
// CRC is inverted.
const TAP_PLACES: [usize; 5] = [13, 16, 22, 36, 39];

// Returns the CRC of a block by polynomial division, bit by bit.
fn crc_by_division(info: &[u8]) -> [u8; 40] {
    let mut register = [0; 40];
    for bit in info {
        let feedback = register[0] ^ *bit;
        register.rotate_left(1);
        register[39] = 0;
        for place in TAP_PLACES {
            register[place] ^= feedback;
        }
    }
    register.map(|bit| 1 ^ bit)
}

// Checks the bits of a CRC.
fn check_parity(rt: &impl Abort, parity: &[u8], expected: &[u8]) {
    assert_eq!(rt; parity, expected);
}

#[test]
fn crc_of_a_fill_frame(rt: HostRuntime) -> Result<(), Fail> {
    let mut octets = [0x2b; BLOCK_OCTETS];
    octets[..3].copy_from_slice(&[0x03, 0x03, 0x01]);
    let mut word = [0; 224];
    from_octets(&octets, &mut word[..BLOCK_BITS]);
    let info = Bits::from_slice(&word[..BLOCK_BITS]).ok_or("bits")?;
    let crc = xcch_parity(&info);
    let mut check = [0; 5];
    to_octets(crc.as_slice(), &mut check);
    check_parity(&rt, &check, &[0x2c, 0x4e, 0x54, 0x02, 0x33]);

    word[BLOCK_BITS..].copy_from_slice(crc.as_slice());
    let mut word = Bits::from_slice(&word).ok_or("bits")?;
    assert!(rt; xcch_holds(&word));
    word.set(100, 1 - word.get(100));
    assert!(rt; !xcch_holds(&word));
    Ok(())
}

#[test]
fn crc_of_the_last_bit_alone(rt: HostRuntime) {
    let mut info = Bits::zero();
    info.set(183, 1);
    let mut expected = [1; 40];
    for place in TAP_PLACES {
        expected[place] = 0;
    }
    check_parity(&rt, xcch_parity(&info).as_slice(), &expected);
}

#[test]
fn parity_of_octets_is_the_parity_of_their_bits(rt: HostRuntime) {
    let mut last = [0; BLOCK_OCTETS];
    check_parity(&rt, &xcch_parity_of_octets(&last), &[0xff; 5]);
    last[22] = 128;
    check_parity(
        &rt,
        &xcch_parity_of_octets(&last),
        &[0xff, 0xdf, 0xbe, 0xff, 0x6f],
    );
}

#[test]
fn table_and_bit_division_agree(rt: HostRuntime) {
    for step in 1..24 {
        let mut info = Bits::<BLOCK_BITS>::zero();
        for i in 0..BLOCK_BITS {
            info.set(i, ((i * i / step) & 1) as u8);
        }
        check_parity(
            &rt,
            xcch_parity(&info).as_slice(),
            &crc_by_division(info.as_slice()),
        );
    }
}

#[test]
fn crc_of_a_synchronisation_burst_of_zeros_is_ones(rt: HostRuntime) {
    check_parity(&rt, sch_parity(&Bits::zero()).as_slice(), &[1; 10]);
    assert!(rt; !sch_holds(&Bits::zero()));
}

#[test]
fn crc_of_an_access_burst_of_zeros_is_ones(rt: HostRuntime) {
    check_parity(&rt, rach_parity(&Bits::zero()).as_slice(), &[1; 6]);
}

#[test]
fn zeros_match_only_a_bsic_of_ones(rt: HostRuntime) -> Result<(), Fail> {
    let ones = Bits::from_slice(&[1; 6]).ok_or("bits")?;
    assert!(rt; rach_holds(&Bits::zero(), &ones));
    assert!(rt; !rach_holds(&Bits::zero(), &Bits::zero()));
    Ok(())
}
