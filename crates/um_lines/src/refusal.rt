//! Writes the last line of output when a line of input is refused.
ghost use Rattle.std.specs.Prelude.{◌≡◌, ◌<◌, ◌≤◌, [], length};
ghost use Rattle.um_lines.specs.Refusals.{reason_word, refused_text};

use crate::fault::LineFault;
use crate::text::Text;

/// Writes the line `refused LINE REASON`, with the line number in decimal.
pub fn refused_line(out: &mut Text, number: u64, fault: LineFault)
    requires { out.old ≡ [] }
    ensures line { out.new ≡ refused_text number fault }
    ensures size { length out.new < 2000 }
{
    out.push(b"refused ");
    out.push_decimal(number);
    out.push(b" ");
    out.push(reason_word(fault));
    out.push(b"\n");
}

fn reason_word(fault: LineFault) -> &'static [u8]
    ensures word { result.now ≡ reason_word fault }
    ensures size { length result.now ≤ 6 }
{
    match fault {
        LineFault::Long => b"long",
        LineFault::Word => b"word",
        LineFault::Order => b"order",
        LineFault::Digits => b"digits",
        LineFault::Length => b"length",
        LineFault::Soft => b"soft",
        LineFault::Place => b"place",
        LineFault::Twice => b"twice",
    }
}
