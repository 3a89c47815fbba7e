//! The `link` command, as a `Command` that the driver runs.
ghost use base.Fml.{GName};
ghost use Rattle.std.specs.Prelude.{◌≡◌, None};
ghost use Rattle.um_link.specs.um_block.Tallies.{counter_plus};
ghost use Rattle.um_link.specs.Abstraction.{Represents};
ghost use Rattle.um_link_command.specs.Sessions.{new_session};
ghost use Rattle.um_link_command.specs.Courses.{SessionWithRadioCounters, link_rules_with_radio_counters, total_frames_sent};
ghost use Rattle.um_link_command.specs.Courses.{total_blocks_received};

use um_driver::Command;
use um_link::{Radio, Step, World};
use um_script::{LineFault, Room, ScriptLine, Text, parse_script, write_step_lines};

/// The `link` command: `world` holds both sides and the blocks in transit, and `radio` encodes and decodes the blocks.
#[derive(Drop)]
pub struct LinkCommand<'a, R> {
    pub world: &'a mut World,
    pub radio: &'a mut R,
    room: Room,
    // The result of the last event that was not refused.
    step: Step,
}

impl<'a, R: Radio> LinkCommand<'a, R> {
    /// Creates the `link` command, which continues from the current state of `world`.
    pub fn new(world: &'a mut World, radio: &'a mut R) -> LinkCommand<'a, R>
        ensures world { result.world.now ≡ world.old }
        ensures radio { result.radio.now ≡ radio.old }
        ensures same_radio { result.radio.ghost_name ≡ radio.entry.ghost_name }
    {
        LinkCommand {
            world,
            radio,
            room: Room::new(),
            step: Step::new(),
        }
    }
}

impl<'a, R: Radio> Command for LinkCommand<'a, R> {
    ghost State = { SessionWithRadioCounters };

    ghost rules = { link_rules_with_radio_counters };

    ghost start = { λ link. record {
      session = new_session link.world.now.tsc link.world.now.channel;
      initial_counters = record { sent_blocks = R.sent link.radio.now; received_blocks = R.heard link.radio.now };
    } };

    ghost represents = { λ link course. Represents link.world.now course.session.air
        × (R.sent link.radio.now ≡ counter_plus (total_frames_sent course.session.answers) course.initial_counters.sent_blocks)
        × (R.heard link.radio.now
        ≡ counter_plus (total_blocks_received course.session.answers) course.initial_counters.received_blocks) };

    ghost FixedPart = { GName };

    ghost kept = { λ link. link.radio.ghost_name };

    fn answer(&mut self, line: &[u8], out: &mut Text) -> Result<(), LineFault> {
        match parse_script(line, &mut self.room) {
            Ok(read) => match read {
                ScriptLine::Skip => {}
                ScriptLine::Step(event) => {
                    let done = self
                        .world
                        .step_into(&mut *self.radio, &event, &mut self.step);
                    write_step_lines(out, &done, &self.step);
                }
            },
            Err(fault) => return Err(fault),
        }
        Ok(())
    }

    fn finish(&self) -> Option<LineFault> {
        None
    }
}
