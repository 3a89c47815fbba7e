//! Implements the `code` command as an `Answer` for the driver.
ghost use Rattle.std.specs.Prelude.{◌≡◌, [], Ok, Err, MatchResult};
ghost use Rattle.um_driver.specs.Rules.{answer_to_meaning};
ghost use Rattle.um_formats.specs.CodeLines.{code_line};
ghost use Rattle.um_code.specs.Code.{code_answer};

use um_block::{Bits, send_access, send_block, send_sync};
use um_driver::Answer;
use um_formats::{
    CodeLine, LineFault, Text, access_line, parse_code, sync_line, write_block_burst_lines,
};

/// The `code` command, which answers each line on its own.
#[derive(Clone, Copy, Debug)]
pub struct Code;

impl Answer for Code {
    ghost answers = { λ line. answer_to_meaning code_answer (code_line line) };

    fn answer(&self, line: &[u8], out: &mut Text) -> Result<(), LineFault> {
        match parse_code(line)? {
            CodeLine::Skip => {}
            CodeLine::Block { tsc, octets } => write_block_burst_lines(
                out,
                &send_block(&octets, tsc),
            ),
            CodeLine::Rach { info, bsic } => write_coded_access_burst(out, &info, &bsic),
            CodeLine::Sch { info } => write_coded_sync_burst(out, &info),
        }
        Ok(())
    }
}

// Rare lines are answered out of the way of blocks, the most frequent lines.
#[cold]
#[inline(never)]
fn write_coded_access_burst(out: &mut Text, info: &Bits<8>, bsic: &Bits<6>)
    requires { out.old ≡ [] }
    ensures { out.new ≡ code_answer (CodeLine.Rach info.now bsic.now) }
{
    access_line(out, bsic, &send_access(info, bsic));
}

#[cold]
#[inline(never)]
fn write_coded_sync_burst(out: &mut Text, info: &Bits<25>)
    requires { out.old ≡ [] }
    ensures { out.new ≡ code_answer (CodeLine.Sch info.now) }
{
    sync_line(out, &send_sync(info));
}
