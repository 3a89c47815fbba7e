//! The bit order of octets, tested on values computed by hand.
use std::test::Fail;
use um_text::{Bits, from_octets, to_octets};

#[test]
fn the_least_significant_bit_comes_first(rt: HostRuntime) {
    let mut bits = [9; 16];
    from_octets(&[0x01, 0xd0], &mut bits);
    assert_eq!(rt; bits, [1, 0, 0, 0, 0, 0, 0, 0, 0, 0, 0, 0, 1, 0, 1, 1]);
}

#[test]
fn octets_are_restored_from_their_bits(rt: HostRuntime) {
    let mut bits = [0; 24];
    from_octets(&[0x2b, 0x00, 0xff], &mut bits);
    let mut octets = [7; 3];
    to_octets(&bits, &mut octets);
    assert_eq!(rt; octets, [0x2b, 0x00, 0xff]);
}

#[test]
fn bits_are_read_and_written_by_index(rt: HostRuntime) -> Result<(), Fail> {
    let mut bits = Bits::<3>::from_slice(&[1, 0, 1]).ok_or("three bits")?;
    bits.set(1, 1);
    assert_eq!(rt; bits.get(1), 1);
    let ones = Bits::from_array([1, 1, 1]);
    assert_eq!(rt; bits.xor(&ones).as_slice(), Bits::<3>::zero().as_slice());
    for wrong in [[1, 0].as_slice(), &[1, 0, 2]] {
        assert!(rt; Bits::<3>::from_slice(wrong).is_none(), "{wrong:?}");
    }
    Ok(())
}
