//! Writes bursts as text lines.
ghost use Rattle.std.specs.Prelude.{◌≡◌, ◌+◌, ◌<◌, ◌≤◌, [], ◌++◌, length};
ghost use Rattle.std.specs.List.{All};
ghost use Rattle.um_block.specs.bit_blocks.Bits.{AllBits};
ghost use Rattle.um_formats.specs.BurstTexts.{normal_burst_text, access_burst_text, sync_burst_text, bursts_text};

use um_block::{BURST_BITS, Bits};
use um_lines::Text;

/// Writes the line `n DIGITS148` of a normal burst.
pub fn normal_line(out: &mut Text, burst: &[u8; BURST_BITS])
    requires empty { out.old ≡ [] }
    requires bits { AllBits burst.now }
    ensures line { out.new ≡ normal_burst_text burst.now }
    ensures size { length out.new < 2000 }
{
    push_normal_burst(out, burst);
}

/// Writes the four lines `n DIGITS148` of a block.
pub fn write_block_burst_lines(out: &mut Text, bursts: &[[u8; BURST_BITS]; 4])
    requires empty { out.old ≡ [] }
    requires bits { All AllBits bursts.now }
    ensures lines { out.new ≡ bursts_text bursts.now }
    ensures size { length out.new < 2000 }
{
    push_block(out, bursts);
}

/// Appends the four lines `n DIGITS148` of a block, 604 octets.
pub fn push_block(out: &mut Text, bursts: &[[u8; BURST_BITS]; 4])
    requires space { length out.old + 604 ≤ 4096 }
    requires bits { All AllBits bursts.now }
    ensures lines { out.new ≡ out.old ++ bursts_text bursts.now }
    ensures length { length out.new ≡ length out.old + 604 }
{
    for burst in bursts {
        push_normal_burst(out, burst);
    }
}

/// Writes the line `a BSIC6 DIGITS88` of an access burst, with the base station identity code (BSIC) of its cell.
pub fn access_line(out: &mut Text, bsic: &Bits<6>, burst: &[u8; 88])
    requires empty { out.old ≡ [] }
    requires bits { AllBits burst.now }
    ensures line { out.new ≡ access_burst_text bsic.now burst.now }
    ensures size { length out.new < 2000 }
{
    out.push(b"a ");
    out.push_digits(bsic.as_slice());
    out.push(b" ");
    out.push_digits(burst);
    out.push(b"\n");
}

/// Writes the line `s DIGITS148` of a synchronisation burst.
pub fn sync_line(out: &mut Text, burst: &[u8; BURST_BITS])
    requires empty { out.old ≡ [] }
    requires bits { AllBits burst.now }
    ensures line { out.new ≡ sync_burst_text burst.now }
    ensures size { length out.new < 2000 }
{
    out.push(b"s ");
    out.push_digits(burst);
    out.push(b"\n");
}

fn push_normal_burst(out: &mut Text, burst: &[u8; BURST_BITS])
    requires space { length out.old + 151 ≤ 4096 }
    requires bits { AllBits burst.now }
    ensures text { out.new ≡ out.old ++ normal_burst_text burst.now }
    ensures length { length out.new ≡ length out.old + 151 }
{
    out.push(b"n ");
    out.push_digits(burst);
    out.push(b"\n");
}
