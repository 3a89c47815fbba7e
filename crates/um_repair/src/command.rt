//! Implements the `repair` command as an `Answer` for the driver.
ghost use Rattle.std.specs.Prelude.{◌≡◌, [], Ok, Err, MatchResult};
ghost use Rattle.um_driver.specs.Rules.{answer_to_meaning};
ghost use Rattle.um_repair.specs.RepairLines.{repair_line};
ghost use Rattle.um_repair.specs.RepairRules.{repair_answer};

use crate::lines::write_answer_line;
use crate::parsing::{RepairLine, parse_repair_line};
use fire_repair::repair;
use um_driver::Answer;
use um_lines::{LineFault, Text};

/// The `repair` command, which answers each line on its own.
#[derive(Clone, Copy, Debug)]
pub struct Repair;

impl Answer for Repair {
    ghost answers = { λ line. answer_to_meaning repair_answer (repair_line line) };

    fn answer(&self, line: &[u8], out: &mut Text) -> Result<(), LineFault> {
        match parse_repair_line(line)? {
            RepairLine::Skip => {}
            RepairLine::Word(word) => write_answer_line(out, &repair(&word)),
        }
        Ok(())
    }
}
