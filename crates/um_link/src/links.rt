//! The state of a session: the endpoints of both sides, and the blocks in transit between them.
ghost use Rattle.std.specs.Prelude.{◌≡◌, ◌≤◌, ◌<◌, length, IfOk, OnErr, None, [], ◌∷◌};
ghost use Rattle.um_air.specs.lapdm_window.declared.Sapi.TheVariants as S;
ghost use Rattle.um_air.specs.lapdm_window.Ends as R;
ghost use Rattle.lapdm_frame.specs.Layout.{n201};
ghost use Rattle.lapdm_frame.specs.Frames.{octets_of};
ghost use Rattle.um_air.specs.lapdm_link.Events as E;
ghost use Rattle.um_air.specs.Air as A;
ghost use Rattle.um_air.specs.Air.{initial_session};
ghost use Rattle.um_link.specs.Naming.{spec_role_of, spec_radio_path_event, spec_event_of, spec_step_of, result_with_step};
ghost use Rattle.um_air.specs.lapdm_window.Calls.{endpoint_call_of, IsCallAllowedFor};
ghost use Rattle.um_link.specs.Possible.{IsPossibleEvent, IsPossibleAirEvent};
ghost use Rattle.um_block.specs.Tallies.{counter_plus_one, counter_plus};
ghost use Rattle.um_link.specs.Queues.{AreBitIndices};

use crate::ends::BothSides;
use crate::events::{Air, End, Event, No, Step, Way, Who};
use crate::queue::{QUEUE_CAPACITY, drop_oldest_block, receive_oldest_block, send_frames};
use circular_buffer::HeapCircularBuffer;
use lapdm_end::{Call, Effects, Refused, Sapi};
use lapdm_frame::{Body, Channel, FrameView, write_on};
use std::alloc::Global;
use um_block::{BURST_BITS, Radio, Received};
use um_io::NoMemory;

/// The four endpoints, and the queues of blocks in both directions.
#[derive(Drop)]
pub(crate) struct WorldState {
    tsc: u8,
    channel: Channel,
    ends: BothSides,
    up: HeapCircularBuffer<[[u8; BURST_BITS]; 4]>,
    down: HeapCircularBuffer<[[u8; BURST_BITS]; 4]>,
    // A buffer for the soft values of an arriving block. It is kept between steps: a local one, cleared for each block, cost a message 0.6
    // us in waits.
    soft: [[i8; BURST_BITS]; 4],
}

impl WorldState {
    ghost use Rattle.um_link.specs.Abstraction.{IsLayer3CallTo, Represents, IsValidWorld, IsWorldStep, StepFitsItsActor, queued_blocks};
    ghost use Rattle.um_link.specs.Abstraction.{CountsBlocksOfStep, UsesNoRadio};
    ghost use Rattle.um_link.specs.Moves.{AppendsToQueue, ReceivesOldestBlockFrom, LosesOldestBlockFrom};

    /// Creates idle endpoints on this channel, and empty queues. Allocates all memory that the session needs.
    pub(crate) fn new_on(alloc: Global, tsc: u8, channel: Channel) -> Result<WorldState, NoMemory>
        requires { tsc ≤ 7 }
        ensures represents { IfOk result (λ w. Represents w (initial_session tsc channel)) }
        ensures valid { IfOk result (λ w. IsValidWorld w) }
    {
        let up = HeapCircularBuffer::with_capacity(alloc, QUEUE_CAPACITY)?;
        let down = HeapCircularBuffer::with_capacity(alloc, QUEUE_CAPACITY)?;
        Ok(WorldState {
            tsc,
            channel,
            ends: BothSides::new_on(channel),
            up,
            down,
            soft: [[0; BURST_BITS]; 4],
        })
    }

    fn has_no_queued_block(&self, sender: End) -> bool
        ensures { result ≡ E.is_empty (length (queued_blocks (spec_role_of sender) self.now)) }
    {
        match sender {
            End::Mobile => self.up.len() == 0,
            End::Network => self.down.len() == 0,
        }
    }

    /// Returns whether the queue of this side has too little room for the two frames that a step may send.
    fn is_queue_full(&self, sender: End) -> bool
        ensures { result ≡ E.is_queue_full (length (queued_blocks (spec_role_of sender) self.now)) }
    {
        match sender {
            End::Mobile => self.up.len() > 62,
            End::Network => self.down.len() > 62,
        }
    }

    /// Codes the frames that a side sends, and appends the blocks to its queue.
    fn send<R: Radio>(&mut self, radio: &mut R, sender: End, effects: &Effects)
        requires valid { IsValidWorld self.old }
        requires space { length (queued_blocks (spec_role_of sender) self.old) ≤ 62 }
        ensures sends { AppendsToQueue (spec_role_of sender) effects.now.frames self.old self.new }
        ensures valid { IsValidWorld self.new }
        ensures sent { R.sent radio.new ≡ counter_plus (length effects.now.frames) (R.sent radio.old) }
        ensures heard { R.heard radio.new ≡ R.heard radio.old }
    {
        let frames = effects.frames.as_slice();
        match sender {
            End::Mobile => send_frames(radio, &mut self.up, frames, self.tsc),
            End::Network => send_frames(radio, &mut self.down, frames, self.tsc),
        }
    }

    /// Removes the oldest block from the queue of this side, inverts the given bits, and receives it.
    fn receive<R: Radio>(
        &mut self,
        radio: &mut R,
        sender: End,
        inverted_bits: &[u16],
        received: &mut Option<Received>,
    )
        requires valid { IsValidWorld self.old }
        requires some { 0 < length (queued_blocks (spec_role_of sender) self.old) }
        requires places { AreBitIndices inverted_bits.now }
        ensures receives { ReceivesOldestBlockFrom (spec_role_of sender) inverted_bits.now self.old received.new self.new }
        ensures valid { IsValidWorld self.new }
        ensures heard { R.heard radio.new ≡ counter_plus_one (R.heard radio.old) }
        ensures sent { R.sent radio.new ≡ R.sent radio.old }
    {
        match sender {
            End::Mobile => receive_oldest_block(
                radio,
                &mut self.up,
                inverted_bits,
                &mut self.soft,
                received,
            ),
            End::Network => receive_oldest_block(
                radio,
                &mut self.down,
                inverted_bits,
                &mut self.soft,
                received,
            ),
        }
    }

    /// Sends the frames of a step, and records in the step who acted.
    fn send_step_frames<R: Radio>(&mut self, radio: &mut R, end: End, step: &mut Step)
        requires valid { IsValidWorld self.old }
        requires space { length (queued_blocks (spec_role_of end) self.old) ≤ 62 }
        ensures sends { AppendsToQueue (spec_role_of end) step.old.effects.frames self.old self.new }
        ensures valid { IsValidWorld self.new }
        ensures step { spec_step_of step.new ≡ record {
          who = E.BySide (spec_role_of end);
          sapi = step.old.sapi;
          received = step.old.received;
          frames = step.old.effects.frames;
          notices = step.old.effects.notices;
        } }
        ensures who { StepFitsItsActor (spec_step_of step.new) }
        ensures effects { step.new.effects ≡ step.old.effects }
        ensures received { step.new.received ≡ step.old.received }
        ensures sent { R.sent radio.new ≡ counter_plus (length step.old.effects.frames) (R.sent radio.old) }
        ensures heard { R.heard radio.new ≡ R.heard radio.old }
    {
        self.send(radio, end, &step.effects);
        step.who = match end {
            End::Mobile => Who::Mobile,
            End::Network => Who::Network,
        };
    }

    fn ask<R: Radio>(
        &mut self,
        radio: &mut R,
        end: End,
        sapi: Sapi,
        call: &Call<'_>,
        step: &mut Step,
    ) -> Result<(), No>
        requires valid { IsValidWorld self.old }
        requires call { IsCallAllowedFor (spec_role_of end) sapi (endpoint_call_of call.now) }
        ensures step { (event : A.Event) → IsLayer3CallTo event (spec_role_of end) sapi (endpoint_call_of call.now)
            → IsWorldStep event self.old (result_with_step result step.new) self.new }
        ensures out_unchanged { OnErr result (step.new ≡ step.old) }
        ensures radio { CountsBlocksOfStep R.sent R.heard (result_with_step result step.new) radio.old radio.new }
    {
        if self.is_queue_full(end) {
            return Err(No::AirFull);
        }
        match self.ends.ask(end, sapi, call, &mut step.effects) {
            Ok(()) => {
                step.sapi = sapi;
                step.received = None;
                self.send_step_frames(radio, end, step);
                Ok(())
            }
            Err(refused) => Err(No::from(refused)),
        }
    }

    /// Delivers the oldest block from one side to the other, with the given bits inverted.
    fn deliver<R: Radio>(
        &mut self,
        radio: &mut R,
        sender: End,
        inverted_bits: &[u16],
        step: &mut Step,
    ) -> Result<(), No>
        requires valid { IsValidWorld self.old }
        requires places { AreBitIndices inverted_bits.now }
        ensures step { IsWorldStep (E.Deliver (spec_role_of sender) inverted_bits.now) self.old
            (result_with_step result step.new) self.new }
        ensures out_unchanged { OnErr result (step.new ≡ step.old) }
        ensures radio { CountsBlocksOfStep R.sent R.heard (result_with_step result step.new) radio.old radio.new }
    {
        let end = other_end(sender);
        if self.has_no_queued_block(sender) {
            return Err(No::Nothing);
        }
        if self.is_queue_full(end) {
            return Err(No::AirFull);
        }
        self.receive(radio, sender, inverted_bits, &mut step.received);
        let report = step.received.as_ref().unwrap();
        step.sapi = self
            .ends
            .take_block(end, &report.accepted, &mut step.effects);
        self.send_step_frames(radio, end, step);
        Ok(())
    }

    fn drop_oldest_block(&mut self, sender: End)
        requires valid { IsValidWorld self.old }
        requires some { 0 < length (queued_blocks (spec_role_of sender) self.old) }
        ensures loses { LosesOldestBlockFrom (spec_role_of sender) self.old self.new }
        ensures valid { IsValidWorld self.new }
    {
        match sender {
            End::Mobile => drop_oldest_block(&mut self.up),
            End::Network => drop_oldest_block(&mut self.down),
        }
    }

    /// Loses the oldest block from this side, and records in the step that nobody acted. Returns the error `Nothing` if no block is in
    /// transit.
    fn lose(&mut self, sender: End, step: &mut Step) -> Result<(), No>
        requires valid { IsValidWorld self.old }
        ensures step { IsWorldStep (E.Lose (spec_role_of sender)) self.old (result_with_step result step.new) self.new }
        ensures out_unchanged { OnErr result (step.new ≡ step.old) }
        ensures no_radio_use { UsesNoRadio (result_with_step result step.new) }
    {
        if self.has_no_queued_block(sender) {
            return Err(No::Nothing);
        }
        self.drop_oldest_block(sender);
        step.who = Who::Nobody;
        step.sapi = Sapi::Zero;
        step.received = None;
        step.effects.clear();
        Ok(())
    }

    /// Puts a SABM for SAPI 0 from another mobile into the queue to the network.
    fn rival<R: Radio>(&mut self, radio: &mut R, info: &[u8], step: &mut Step) -> Result<(), No>
        requires valid { IsValidWorld self.old }
        ensures step { IsWorldStep (E.Rival info.now) self.old (result_with_step result step.new) self.new }
        ensures out_unchanged { OnErr result (step.new ≡ step.old) }
        ensures radio { CountsBlocksOfStep R.sent R.heard (result_with_step result step.new) radio.old radio.new }
    {
        if self.is_queue_full(End::Mobile) {
            return Err(No::AirFull);
        }
        if info.is_empty() {
            return Err(No::Empty);
        }
        if info.len() > self.channel.n201() {
            return Err(No::TooLong);
        }
        write_rival_sabm(info, self.channel, &mut step.effects);
        self.send(radio, End::Mobile, &step.effects);
        step.who = Who::Rival;
        step.sapi = Sapi::Zero;
        step.received = None;
        Ok(())
    }

    fn deliver_or_lose<R: Radio>(
        &mut self,
        radio: &mut R,
        sender: End,
        air: &Air<'_>,
        step: &mut Step,
    ) -> Result<(), No>
        requires valid { IsValidWorld self.old }
        requires possible { IsPossibleAirEvent air.now }
        ensures step { IsWorldStep (spec_radio_path_event (spec_role_of sender) air.now) self.old
            (result_with_step result step.new) self.new }
        ensures out_unchanged { OnErr result (step.new ≡ step.old) }
        ensures radio { CountsBlocksOfStep R.sent R.heard (result_with_step result step.new) radio.old radio.new }
    {
        match air {
            Air::Deliver => self.deliver(radio, sender, &[], step),
            Air::Lose => self.lose(sender, step),
            Air::Flip(places) => self.deliver(radio, sender, places, step),
        }
    }

    pub(crate) fn carry_out_event<R: Radio>(
        &mut self,
        radio: &mut R,
        event: &Event<'_>,
        step: &mut Step,
    ) -> Result<(), No>
        requires valid { IsValidWorld self.old }
        requires possible { IsPossibleEvent event.now }
        ensures step { IsWorldStep (spec_event_of event.now) self.old (result_with_step result step.new) self.new }
        ensures out_unchanged { OnErr result (step.new ≡ step.old) }
        ensures radio { CountsBlocksOfStep R.sent R.heard (result_with_step result step.new) radio.old radio.new }
    {
        match event {
            Event::Open(info) => self.ask(radio, End::Mobile, Sapi::Zero, &Call::Open(info), step),
            Event::OpenBare(end) => self.ask(radio, *end, Sapi::Three, &Call::OpenBare, step),
            Event::End(end, sapi, call) => self.ask(
                radio,
                *end,
                *sapi,
                &call.as_endpoint_call(),
                step,
            ),
            Event::Air(way, air) => self.deliver_or_lose(radio, way.sender(), air, step),
            Event::Rival(info) => self.rival(radio, info, step),
        }
    }
}

fn other_end(end: End) -> End
    ensures { spec_role_of result ≡ E.other (spec_role_of end) }
{
    match end {
        End::Mobile => End::Network,
        End::Network => End::Mobile,
    }
}

/// Replaces the contents of `effects` with the SABM that another mobile sends with this information.
fn write_rival_sabm(info: &[u8], channel: Channel, effects: &mut Effects)
    requires { length info.now ≤ n201 channel }
    ensures frames { effects.new.frames ≡ octets_of channel (E.rival_sabm info.now) ∷ [] }
    ensures notices { effects.new.notices ≡ [] }
{
    let frame = FrameView {
        sapi: 0,
        cr: false,
        body: Body::Sabm { p: true, info },
    };
    effects.clear();
    effects.frames.push(write_on(&frame, channel));
}

impl Way {
    ghost use Rattle.um_link.specs.Naming.{sender_of};

    fn sender(self) -> End
        ensures { spec_role_of result ≡ sender_of self }
    {
        match self {
            Way::Up => End::Mobile,
            Way::Down => End::Network,
        }
    }
}

impl From<Refused> for No {
    ghost use Rattle.um_link.specs.Naming.{spec_event_refusal_of};

    fn from(refused: Refused) -> No
        ensures { spec_event_refusal_of result ≡ E.RefusedByEndpoint refused }
    {
        match refused {
            Refused::NotIdle => No::NotIdle,
            Refused::NotOpen => No::NotOpen,
            Refused::NotRunning => No::NotRunning,
            Refused::Empty => No::Empty,
            Refused::TooLong => No::TooLong,
            Refused::Full => No::Full,
        }
    }
}
