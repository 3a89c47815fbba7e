//! A terminal: both endpoints of one side, which sends and receives bursts.
ghost use Rattle.std.specs.Prelude.{◌≡◌, ◌≤◌, Some, None, IfOk, OnOk, OnErr, IsSome};
ghost use Rattle.std.specs.List.{All};
ghost use Rattle.um_link.specs.bit_blocks.Bits.{AllBits};
ghost use Rattle.um_link.specs.um_block.conv_code.Likelihood.{AllSoftBits};
ghost use Rattle.um_link.specs.um_block.Computed.{sent_block};
ghost use Rattle.um_link.specs.um_block.Received.{IsReceivedBlock};
ghost use Rattle.um_link.specs.um_block.Sent.{IsSentBlock};
ghost use Rattle.um_link.specs.lapdm_frame.declared.Channel.TheVariants.{Sdcch};
ghost use Rattle.lapdm_end.specs.Sides.{channel_of, role_of};
ghost use Rattle.um_link.specs.lapdm_link.Events as E;
ghost use Rattle.um_link.specs.Naming.{spec_role_of, spec_event_of, spec_who_of, spec_step_of, result_with_step};
ghost use Rattle.um_link.specs.um_block.declared.received.Received.{Received};
ghost use Rattle.um_script.specs.AnswerLines.{reception_quality, ReceptionIsInRange};

use crate::asking::{endpoint_call_of_event, sapi_of_event};
use lapdm_end::{Channel, Role, Sapi, Side};
use um_formats::{BLOCK_OCTETS, BURST_BITS};
use um_link::{End, Event, No, Received, Step, Who, receive_block, send_block};

/// The endpoints of one side for SAPI 0 and 3, on SDCCH, and the training sequence code of the blocks that the side sends. No call
/// allocates memory.
#[derive(Drop)]
pub struct Terminal {
    pub(crate) side: End,
    tsc: u8,
    links: Side,
    ghost valid_tsc: { tsc ≤ 7 },
    ghost role: { role_of links ≡ spec_role_of side },
    ghost channel: { channel_of links ≡ Sdcch },
}

impl Terminal {
    ghost use Rattle.um_end.specs.Terminals.{SideState, idle_side, IsCallOfRole};
    ghost use Rattle.um_end.specs.Abstraction.{Represents, CallRefinesSideStep, BurstsRefineSideStep, KeepsSideAndTsc, role_of_terminal};

    /// Creates a side with both endpoints in Idle. The training sequence code `tsc` must be 0 to 7.
    pub fn new(side: End, tsc: u8) -> Terminal
        requires { tsc ≤ 7 }
        ensures represents { Represents result (idle_side (spec_role_of side) Sdcch) }
        ensures side { result.side ≡ side }
        ensures tsc { result.tsc ≡ tsc }
    {
        let role = match side {
            End::Mobile => Role::Mobile,
            End::Network => Role::Network,
        };
        Terminal {
            side,
            tsc,
            links: Side::new_on(role, Channel::Sdcch),
        }
    }

    /// Carries out a layer 3 call to an endpoint on this side: the mobile's `Open`, an `OpenBare`, or an `Event::End`. A refused call
    /// changes nothing.
    pub fn ask(&mut self, event: &Event<'_>) -> Result<Step, No>
        requires own { IsCallOfRole (role_of_terminal self.old) (spec_event_of event.now) }
        ensures refines { CallRefinesSideStep (spec_event_of event.now) self.old result self.new }
        ensures refused { OnErr result (self.new ≡ self.old) }
        ensures who { IfOk result (λ step. spec_who_of step.who ≡ E.BySide (role_of_terminal self.old)) }
        ensures received { IfOk result (λ step. step.received ≡ None) }
        ensures same { KeepsSideAndTsc self.old self.new }
    {
        let mut step = Step::new();
        match self.ask_into(event, &mut step) {
            Ok(()) => Ok(step),
            Err(no) => Err(no),
        }
    }

    /// Carries out a layer 3 call to an endpoint of this side and writes the result into `step`: a step has more than 850 octets, and to
    /// return it would copy them. A refused call leaves `step` unchanged.
    pub fn ask_into(&mut self, event: &Event<'_>, step: &mut Step) -> Result<(), No>
        requires own { IsCallOfRole (role_of_terminal self.old) (spec_event_of event.now) }
        ensures refines { CallRefinesSideStep (spec_event_of event.now) self.old (result_with_step result step.new) self.new }
        ensures refused { OnErr result (self.new ≡ self.old) }
        ensures out_unchanged { OnErr result (step.new ≡ step.old) }
        ensures who { OnOk result (spec_who_of step.new.who ≡ E.BySide (role_of_terminal self.old)) }
        ensures received { OnOk result (step.new.received ≡ None) }
        ensures same { KeepsSideAndTsc self.old self.new }
    {
        let sapi = sapi_of_event(event);
        let call = endpoint_call_of_event(event);
        match self.links.call(sapi, &call, &mut step.effects) {
            Ok(()) => {
                step.received = None;
                self.set_side_and_sapi(sapi, step);
                Ok(())
            }
            Err(refused) => Err(No::from(refused)),
        }
    }

    /// Receives four bursts as a block. If the accepted octets encode a frame, the endpoint with its SAPI receives it.
    pub fn receive(&mut self, bursts: &[[i8; BURST_BITS]; 4]) -> Step
        requires soft { All AllSoftBits bursts.now }
        ensures refines { BurstsRefineSideStep bursts.now self.old result self.new }
        ensures who { spec_who_of result.who ≡ E.BySide (role_of_terminal self.old) }
        ensures received { IsSome result.received }
        ensures reception { (r : Received) → result.received ≡ Some r → IsReceivedBlock bursts.now r }
        ensures numbers { (r : Received) → result.received ≡ Some r → ReceptionIsInRange (reception_quality r) }
        ensures same { KeepsSideAndTsc self.old self.new }
    {
        let mut step = Step::new();
        self.receive_into(bursts, &mut step);
        step
    }

    /// Receives four bursts as a block and writes the result into `step`. If the accepted octets encode a frame, the endpoint with its SAPI
    /// receives it.
    pub fn receive_into(&mut self, bursts: &[[i8; BURST_BITS]; 4], step: &mut Step)
        requires soft { All AllSoftBits bursts.now }
        ensures refines { BurstsRefineSideStep bursts.now self.old step.new self.new }
        ensures who { spec_who_of step.new.who ≡ E.BySide (role_of_terminal self.old) }
        ensures received { IsSome step.new.received }
        ensures reception { (r : Received) → step.new.received ≡ Some r → IsReceivedBlock bursts.now r }
        ensures numbers { (r : Received) → step.new.received ≡ Some r → ReceptionIsInRange (reception_quality r) }
        ensures same { KeepsSideAndTsc self.old self.new }
    {
        let report = receive_block(bursts);
        let sapi = self.links.take_block(&report.accepted, &mut step.effects);
        step.received = Some(report);
        self.set_side_and_sapi(sapi, step);
    }

    /// Encodes these octets as the four bursts of a block, with the terminal's training sequence code.
    pub fn bursts(&self, octets: &[u8; BLOCK_OCTETS]) -> [[u8; BURST_BITS]; 4]
        ensures sent { IsSentBlock octets.now self.now.tsc result }
        ensures value { result ≡ sent_block octets.now self.now.tsc }
        ensures bits { All AllBits result }
    {
        send_block(octets, self.tsc)
    }

    fn set_side_and_sapi(&self, sapi: Sapi, step: &mut Step)
        ensures step { spec_step_of step.new ≡ record {
          who = E.BySide (role_of_terminal self.now);
          sapi = sapi;
          received = step.old.received;
          frames = step.old.effects.frames;
          notices = step.old.effects.notices;
        } }
        ensures received { step.new.received ≡ step.old.received }
    {
        step.who = match self.side {
            End::Mobile => Who::Mobile,
            End::Network => Who::Network,
        };
        step.sapi = sapi;
    }
}
