//! Runs the `link` command in a new session.
ghost use Rattle.std.specs.Prelude.{◌≡◌, ◌≢◌, ◌≤◌};
ghost use Rattle.um_driver.specs.Table.{FailureCountsMatch, EndsAsPrescribed};
ghost use Rattle.um_end.specs.um_link.um_air.Air.{initial_session};
ghost use Rattle.um_end.specs.um_link.Abstraction.{Represents};
ghost use Rattle.um_link_command.specs.Sessions.{new_session, link_command_rules};
ghost use Rattle.um_link_command.specs.Promises.{IsLinkCommandRun};

use std::alloc::Global;
use um_driver::{Sink, Source, Status, drive};
use um_link_command::{Channel, LinkCommand, Radio, World};

/// Runs a script in a new session on `channel`. The training sequence code `tsc` must be 0 to 7. All memory is allocated before the first
/// octet is read.
pub(crate) fn run_link<S: Source, K: Sink, R: Radio>(
    alloc: Global,
    tsc: u8,
    channel: Channel,
    input: &mut S,
    output: &mut K,
    radio: &mut R,
) -> Status
    requires { tsc ≤ 7 }

    ensures run { IsLinkCommandRun tsc channel result
        (S.left input.old) (S.left input.new) (K.taken output.old) (K.taken output.new)
        (record { sent_blocks = R.sent radio.old; received_blocks = R.heard radio.old })
        (record { sent_blocks = R.sent radio.new; received_blocks = R.heard radio.new }) }

    ensures due { EndsAsPrescribed link_command_rules (new_session tsc channel) result
        (S.left input.old) (K.taken output.old) (K.taken output.new) }

    ensures opening { result ≡ Status.NoMemory → (input.new ≡ input.old) × (output.new ≡ output.old) }
    ensures radio_unused { result ≡ Status.NoMemory → radio.new ≡ radio.old }

    ensures cause { FailureCountsMatch result (S.faults input.old) (S.faults input.new)
        (K.faults output.old) (K.faults output.new) }

    ensures words { result ≢ Status.BadWords }
{
    match World::new_on(alloc, tsc, channel) {
        Ok(mut world) => {
            let mut link = LinkCommand::new(&mut world, radio);
            run_link_session(alloc, &mut link, input, output)
        }
        Err(_) => Status::NoMemory,
    }
}

fn run_link_session<S: Source, K: Sink, R: Radio>(
    alloc: Global,
    link: &mut LinkCommand<'_, R>,
    input: &mut S,
    output: &mut K,
) -> Status
    requires { Represents link.old.world.now (initial_session link.old.world.now.tsc link.old.world.now.channel) }
    ensures same_radio { link.new.radio.ghost_name ≡ link.old.radio.ghost_name }

    ensures run { IsLinkCommandRun link.old.world.now.tsc link.old.world.now.channel result
        (S.left input.old) (S.left input.new) (K.taken output.old) (K.taken output.new)
        (record { sent_blocks = R.sent link.old.radio.now; received_blocks = R.heard link.old.radio.now })
        (record { sent_blocks = R.sent link.new.radio.now; received_blocks = R.heard link.new.radio.now }) }

    ensures due { EndsAsPrescribed link_command_rules (new_session link.old.world.now.tsc link.old.world.now.channel) result
        (S.left input.old) (K.taken output.old) (K.taken output.new) }

    ensures opening { result ≡ Status.NoMemory → (input.new ≡ input.old) × (output.new ≡ output.old) }
    ensures radio_unused { result ≡ Status.NoMemory → link.new.radio.now ≡ link.old.radio.now }

    ensures cause { FailureCountsMatch result (S.faults input.old) (S.faults input.new)
        (K.faults output.old) (K.faults output.new) }

    ensures words { result ≢ Status.BadWords }
{
    drive(alloc, link, input, output)
}
