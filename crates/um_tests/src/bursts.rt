//! The positions of bits in each type of burst, tested on values computed by hand.
ghost use Rattle.std.specs.Prelude.{◌≡◌, ◌≤◌, length};
ghost use Rattle.um_block.specs.bit_blocks.Bits.{AllBits};
ghost use Rattle.burst_map.specs.NormalBurst.{normal_burst};

use burst_map::{BURST_BITS, NormalParts, access, normal, sync};
use std::alloc::{AllocError, Global};
use std::process::Abort;

// Converts a string of the digits 0 and 1 to bits. Spaces are skipped.
fn bits(alloc: Global, digits: &str) -> Result<Vec<u8>, AllocError> {
    digits
        .bytes()
        .filter(|digit| *digit != b' ')
        .map(|digit| digit & 1)
        .collect(alloc)
}

fn assert_bits(rt: &impl Abort, bits: &[u8], count: usize)
    ensures count { length bits.now ≡ count }
    ensures bits { AllBits bits.now }
{
    assert_eq!(rt; bits.len(), count);
    let are_bits = bits.iter().all(|bit| *bit <= 1);
    assert!(rt; are_bits);
}

// Builds the burst of `normal` with `NormalParts`.
fn normal_from_parts(first: &[u8], second: &[u8], tsc: u8) -> [u8; BURST_BITS]
    requires first { length first.now ≡ 57 }
    requires second { length second.now ≡ 57 }
    requires tsc_in_range { tsc ≤ 7 }
    ensures { result ≡ normal_burst first.now second.now tsc }
{
    let mut burst = [0; BURST_BITS];
    let mut parts = NormalParts::new(&mut burst, tsc);
    parts.first_mut().copy_from_slice(first);
    parts.second_mut().copy_from_slice(second);
    burst
}

// Tests `normal` with the first burst of a block of 23 octets 00 and training sequence code 0.
#[test]
fn builds_a_normal_burst(rt: HostRuntime) -> Result<(), AllocError> {
    let first = bits(
        rt.alloc(),
        "0000000100 0010000000 0100001010 0000010000 1010000001 0000001",
    )?;
    let second = bits(
        rt.alloc(),
        "0000001000 0001000000 1010000100 0000101000 0100000000 1000010",
    )?;
    let expected = bits(
        rt.alloc(),
        "000 0000000100 0010000000 0100001010 0000010000 1010000001 0000001 1 00100101110000100010010111 1 \
         0000001000 0001000000 1010000100 0000101000 0100000000 1000010 000",
    )?;
    let first = first.as_slice();
    let second = second.as_slice();
    assert_bits(&rt, first, 57);
    assert_bits(&rt, second, 57);
    assert_eq!(rt; normal(first, second, 0).as_slice(), expected.as_slice());
    assert_eq!(rt;
        normal_from_parts(first, second, 0).as_slice(),
        expected.as_slice()
    );
    Ok(())
}

// Tests `access` with the access burst of eight information bits 0 for BSIC 0.
#[test]
fn builds_an_access_burst(rt: HostRuntime) -> Result<(), AllocError> {
    let body = bits(rt.alloc(), "000000000000000011101001101001000011")?;
    let expected = bits(
        rt.alloc(),
        "00111010 01001011011111111001100110101010001111000 000000000000000011101001101001000011 000",
    )?;
    let body = body.as_slice();
    assert_bits(&rt, body, 36);
    assert_eq!(rt; access(body).as_slice(), expected.as_slice());
    Ok(())
}

// Tests `sync` with the synchronisation burst of 25 information bits 0.
#[test]
fn builds_a_synchronisation_burst(rt: HostRuntime) -> Result<(), AllocError> {
    let first = bits(rt.alloc(), "000000000000000000000000000000000000000")?;
    let second = bits(rt.alloc(), "00000000000 1110100110101010101001000011")?;
    let expected = bits(
        rt.alloc(),
        "000 000000000000000000000000000000000000000 \
         1011100101100010000001000000111100101101010001010111011000011011 \
         00000000000 1110100110101010101001000011 000",
    )?;
    let first = first.as_slice();
    let second = second.as_slice();
    assert_bits(&rt, first, 39);
    assert_bits(&rt, second, 39);
    assert_eq!(rt; sync(first, second).as_slice(), expected.as_slice());
    Ok(())
}
