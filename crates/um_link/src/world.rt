//! A session between a mobile and a network. Each call of `step` carries out one event.
ghost use Rattle.std.specs.Prelude.{◌≡◌, ◌≤◌, IfOk, OnErr};
ghost use Rattle.lapdm_frame.specs.declared.Channel.TheVariants as C;
ghost use Rattle.um_air.specs.Air.{initial_session};
ghost use Rattle.um_link.specs.Naming.{spec_event_of, result_with_step};
ghost use Rattle.um_link.specs.Abstraction.{Represents, IsWorldStep, CountsBlocksOfStep};
ghost use Rattle.um_link.specs.Sessions.{ContinuesSession};
ghost use Rattle.um_link.specs.Possible.{IsPossibleEvent};
ghost use Rattle.um_air.specs.Sessions.{AreOctets, EventMessageIsOctets};
ghost use Rattle.um_link.specs.Naming.{spec_request_of, spec_role_of};
ghost use Rattle.um_air.specs.lapdm_link.Events.{Ask};

use crate::events::{Call, End, Event, No, Step};
use crate::links::WorldState;
use lapdm_end::Sapi;
use lapdm_frame::Channel;
use std::alloc::Global;
use std::marker::Model;
use um_air::{
    law_event_answer_is_unique, law_step_delivers_in_order, law_step_keeps_log_ordered,
    law_three_inverted_bits_are_benign,
};
use um_block::Radio;
use um_io::NoMemory;

/// One mobile and one network, the links of SAPI 0 and 3 between them, and at most 64 blocks in transit in each direction. A `Radio` codes
/// each frame that is sent and receives each block that arrives.
#[derive(Drop)]
pub struct World {
    state: WorldState,
}

// In contracts, a `World` stands for its private `WorldState`.
impl Model for World {
    ghost use Rattle.um_link.specs.declared.links.WorldState.{WorldState};

    ghost Value = { WorldState };

    ghost use Rattle.um_link.specs.Abstraction.{IsValidWorld};

    ghost view = { λ world. world.state };

    ghost invariant = { λ world. IsValidWorld world.state };
}

impl World {
    /// Creates a world for SDCCH, with idle endpoints and empty queues. The training sequence code must be 0 to 7. Allocates all memory
    /// that the world needs.
    pub fn new(alloc: Global, tsc: u8) -> Result<World, NoMemory>
        requires { tsc ≤ 7 }
        ensures { IfOk result (λ world. Represents world (initial_session tsc C.Sdcch)) }
    {
        World::new_on(alloc, tsc, Channel::Sdcch)
    }

    /// Creates a world for this channel, with idle endpoints and empty queues. The training sequence code must be 0 to 7. Allocates all
    /// memory that the world needs.
    pub fn new_on(alloc: Global, tsc: u8, channel: Channel) -> Result<World, NoMemory>
        requires { tsc ≤ 7 }
        ensures { IfOk result (λ world. Represents world (initial_session tsc channel)) }
    {
        let links = WorldState::new_on(alloc, tsc, channel)?;
        Ok(World { state: links })
    }

    /// Carries out an event, or refuses it for the first of these reasons: no block is in transit in its direction (`Nothing`); the queue
    /// for its frames holds more than 62 blocks (`AirFull`); the endpoint refuses the call; the SABM of another mobile has no information
    /// (`Empty`) or more than N201 octets (`TooLong`).
    pub fn step<R: Radio>(&mut self, radio: &mut R, event: &Event<'_>) -> Result<Step, No>
        requires { IsPossibleEvent event.now }
        ensures step { IsWorldStep (spec_event_of event.now) self.old result self.new }
        ensures session { ContinuesSession (spec_event_of event.now) self.old result self.new }
        ensures radio { CountsBlocksOfStep R.sent R.heard result radio.old radio.new }
        ensures octets { EventMessageIsOctets (spec_event_of event.now) }
    {
        let mut step = Step::new();
        match self.step_into(radio, event, &mut step) {
            Ok(()) => Ok(step),
            Err(no) => Err(no),
        }
    }

    /// Carries out an event and writes the result into the caller's `Step`, which stays unchanged if the event is refused. It refuses an
    /// event for the same reasons as `World::step`.
    pub fn step_into<R: Radio>(
        &mut self,
        radio: &mut R,
        event: &Event<'_>,
        step: &mut Step,
    ) -> Result<(), No>
        requires { IsPossibleEvent event.now }
        ensures step { IsWorldStep (spec_event_of event.now) self.old (result_with_step result step.new) self.new }
        ensures session { ContinuesSession (spec_event_of event.now) self.old (result_with_step result step.new) self.new }
        ensures out_unchanged { OnErr result (step.new ≡ step.old) }
        ensures radio { CountsBlocksOfStep R.sent R.heard (result_with_step result step.new) radio.old radio.new }
        ensures octets { EventMessageIsOctets (spec_event_of event.now) }
    {
        law_event_answer_is_unique();
        law_step_keeps_log_ordered();
        law_step_delivers_in_order();
        law_three_inverted_bits_are_benign();
        law_event_messages_are_octets(event);
        self.state.carry_out_event(radio, event, step)
    }
}

/// Law: the messages in every `Event` consist of octets.
fn law_event_messages_are_octets(event: &Event<'_>)
    ensures { EventMessageIsOctets (spec_event_of event.now) }
{
    match event {
        Event::Open(info) => law_u8_slice_is_octets(info),
        Event::Rival(info) => law_u8_slice_is_octets(info),
        Event::End(end, sapi, call) => law_call_message_is_octets(*end, *sapi, call),
        Event::OpenBare(_) => {}
        Event::Air(_, _) => {}
    }
}

fn law_call_message_is_octets(end: End, sapi: Sapi, call: &Call<'_>)
    ensures { EventMessageIsOctets (Ask (spec_role_of end) sapi (spec_request_of call.now)) }
{
    match call {
        Call::Send(message) => law_u8_slice_is_octets(message),
        Call::Unit(message) => law_u8_slice_is_octets(message),
        Call::Close => {}
        Call::Timer => {}
        Call::Idle => {}
    }
}

fn law_u8_slice_is_octets(octets: &[u8])
    ensures { AreOctets octets.now }
{}
