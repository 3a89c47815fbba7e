//! A command that reads bursts as text lines.
ghost use Rattle.std.specs.Prelude.{◌≡◌, ◌<◌, ℤ, List, [], ◌∷◌, ◌++◌, length};
ghost use Rattle.um_formats.specs.Held.{HasValidSoftValues};
ghost use Rattle.um_replay.specs.BurstRules.{burst_rules, answer_to_bursts};
ghost use Rattle.um_driver.specs.Rules.{IsLineAnswerOrFault};

use crate::reports::Reports;
use std::marker::Model;
use um_driver::Command;
use um_formats::{
    BurstsToDecode, HeldBursts, LineFault, Text, hold_normal_burst, parse_and_hold_burst,
};

/// A command that holds the bursts of an incomplete block, and lets `reports` answer complete blocks and single bursts.
#[derive(Drop)]
pub struct BurstCommand<R> {
    held: HeldBursts,
    reports: R,
}

// In contracts, a `BurstCommand` stands for the list of bursts that it holds.
impl<R> Model for BurstCommand<R> {
    ghost use Rattle.std.specs.Prelude.{ℤ, List};

    ghost Value = { List (List ℤ) };

    ghost view = { λ c. c.held.held };
}

impl<R: Reports> BurstCommand<R> {
    /// Creates a command that holds no bursts yet.
    pub fn new(reports: R) -> BurstCommand<R>
        ensures { result ≡ [] }
    {
        BurstCommand {
            held: HeldBursts::new(),
            reports,
        }
    }

    /// Answers a line that is not a valid `n DIGITS148` or `N HEX296`. It is a separate function so that the common path needs no stack
    /// space for its result.
    #[cold]
    #[inline(never)]
    fn answer_other_than_normal_burst(
        &mut self,
        line: &[u8],
        out: &mut Text,
    ) -> Result<(), LineFault>
        requires { out.old ≡ [] }
        ensures answered { IsLineAnswerOrFault (burst_rules R.answers) self.old line.now result out.new (λ after. self.new ≡ after) }
        ensures size { length out.new < 2000 }
    {
        match parse_and_hold_burst(line, &mut self.held) {
            Ok(next) => write_answer(out, &self.reports, &next, &self.held),
            Err(fault) => return Err(fault),
        }
        Ok(())
    }
}

impl<R: Reports> Command for BurstCommand<R> {
    ghost State = { List (List ℤ) };

    ghost rules = { burst_rules R.answers };

    ghost start = { λ command. command };

    ghost represents = { λ command held. command ≡ held };

    ghost FixedPart = { Unit {0} };

    ghost kept = { λ _. tt };

    fn answer(&mut self, line: &[u8], out: &mut Text) -> Result<(), LineFault>
        requires empty { out.old ≡ [] }
        ensures answered { (held : List (List ℤ)) → self.old ≡ held →
            IsLineAnswerOrFault (burst_rules R.answers) held line.now result out.new (λ after. self.new ≡ after) }
        ensures keeps { tt {0} ≡ tt }
        ensures size { length out.new < 2000 }
    {
        match hold_normal_burst(line, &mut self.held) {
            Some(complete) => {
                if complete {
                    self.reports.block(out, self.held.block());
                }
                Ok(())
            }
            None => self.answer_other_than_normal_burst(line, out),
        }
    }

    fn finish(&self) -> Option<LineFault> {
        if self.held.count() == 0 {
            None
        } else {
            Some(LineFault::Order)
        }
    }
}

fn write_answer<R: Reports>(out: &mut Text, reports: &R, next: &BurstsToDecode, held: &HeldBursts)
    requires empty { out.old ≡ [] }
    requires soft { HasValidSoftValues next.now }
    ensures answer { out.new ≡ answer_to_bursts R.answers next.now held.now.slots }
    ensures size { length out.new < 2000 }
{
    match next {
        BurstsToDecode::Skip => {}
        BurstsToDecode::Held => {}
        BurstsToDecode::Block => reports.block(out, held.block()),
        BurstsToDecode::Access { bsic, soft } => reports.access(out, bsic, soft),
        BurstsToDecode::Sync(soft) => reports.sync(out, soft),
    }
}
