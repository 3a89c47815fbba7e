//! Carries out all events of a generated session.
ghost use Rattle.std.specs.Prelude.{◌≡◌, ◌≤◌, ◌+◌, IfOk, OnErr};
ghost use Rattle.um_link.specs.um_block.Tallies.{counter_plus};
ghost use Rattle.um_make.specs.Runs.{generated_summary, AckedAtMostReceived};

use crate::script::Script;
use crate::summary::Summary;
use std::alloc::Global;
use um_link::{NoMemory, Radio, Step, World};
use um_script::Room;

/// Carries out the generated session of `n` messages (1 to 1000) on SDCCH with training sequence code `tsc` (0 to 7), and counts what
/// happens. Allocates all memory before the first event.
pub fn make<R: Radio>(alloc: Global, n: u32, tsc: u8, radio: &mut R) -> Result<Summary, NoMemory>
    requires some { 1 ≤ n }
    requires most { n ≤ 1000 }
    requires tsc { tsc ≤ 7 }
    ensures run { IfOk result (λ s. s ≡ generated_summary tsc n) }
    ensures delivered_messages { IfOk result (λ s. AckedAtMostReceived s) }
    ensures sent { IfOk result (λ s. R.sent radio.new ≡ counter_plus s.sent_blocks (R.sent radio.old)) }
    ensures heard { IfOk result (λ s. R.heard radio.new ≡ counter_plus (s.good_blocks + s.bad_blocks) (R.heard radio.old)) }
    ensures radio_unchanged { OnErr result (radio.new ≡ radio.old) }
{
    let mut world = World::new(alloc, tsc)?;
    let mut script = Script::new(n);
    let mut room = Room::new();
    let mut summary = Summary::new();
    // One step for all events: when each was returned by value, a quarter of all instructions went into copies of reports and frames.
    let mut step = Step::new();
    while let Some(event) = script.next(&mut room) {
        let done = world.step_into(radio, &event, &mut step);
        summary.count_step(&event, &done, &step);
    }
    Ok(summary)
}
