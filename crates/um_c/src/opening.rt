//! An example of a caller: it connects two endpoints, and its contract shows that the laws of connected endpoints apply to it.
ghost use Rattle.std.specs.Prelude.{◌≡◌, length, IsTrue, Some};
ghost use Rattle.lapdm_frame.specs.declared.Channel.{Channel};
ghost use Rattle.um_air.specs.segmenting.Buffers.{octets_in_buffer};
ghost use Rattle.um_air.specs.lapdm_window.declared.Sapi.TheVariants.{Zero};
ghost use Rattle.um_air.specs.lapdm_window.Ends.{Mobile, Network, EndpointState};
ghost use Rattle.um_c.specs.Joined.{ProgramState, IsProgramRun, DeliversOldestBlock};
ghost use Rattle.um_c.specs.States.{StructRepresents};
ghost use Rattle.um_c.specs.Opening.{program_of_two_endpoints, first_block, establishment_steps, CanEstablishLink, BothAreIdle};
ghost use Rattle.um_c.specs.Opening.{mobile_after_establishment, network_after_establishment};

use crate::effects::CEffects;
use crate::ends::{um_end_open, um_end_take};
use crate::states::CEndpoint;
use lapdm_end::MessageBuffer;
use lapdm_frame::BLOCK_OCTETS;

/// Establishes the link of SAPI 0: the mobile sends its SABM, the network receives it, and the mobile receives the UA. Returns true if each
/// call succeeds and the first two send one block each; then all laws of connected endpoints hold for the three calls. If both endpoints
/// are in Idle on the same channel and the information has 1 to N201 octets, it returns true, and both endpoints are then in Open.
pub fn open_link(
    mobile: &mut CEndpoint,
    network: &mut CEndpoint,
    info: &MessageBuffer,
    asked: &mut CEffects,
    answered: &mut CEffects,
    opened: &mut CEffects,
) -> bool
    ensures run { IsTrue result → (channel : Channel) → (z : ProgramState)
        × IsProgramRun channel DeliversOldestBlock (program_of_two_endpoints mobile.old network.old)
        (establishment_steps (octets_in_buffer info.now) asked.new answered.new opened.new) z
        × (z.state Mobile Zero ≡ Some mobile.new) × (z.state Network Zero ≡ Some network.new) }
    ensures succeeds_from_idle { (e f : EndpointState) → StructRepresents mobile.old e → StructRepresents network.old f →
        CanEstablishLink (octets_in_buffer info.now) e f → IsTrue result }
    ensures opens { (e f : EndpointState) → StructRepresents mobile.old e → StructRepresents network.old f →
        BothAreIdle (octets_in_buffer info.now) e f →
        StructRepresents mobile.new (mobile_after_establishment (octets_in_buffer info.now) e)
        × StructRepresents network.new (network_after_establishment (octets_in_buffer info.now) f) }
{
    if um_end_open(mobile, info, asked) != 0 {
        return false;
    }
    if asked.frame_count != 1 {
        return false;
    }
    if um_end_take(network, &first_block(asked), answered) != 0 {
        return false;
    }
    if answered.frame_count != 1 {
        return false;
    }
    um_end_take(mobile, &first_block(answered), opened) == 0
}

fn first_block(output: &CEffects) -> [u8; BLOCK_OCTETS]
    ensures value { result ≡ first_block output.now }
    ensures size { length result ≡ BLOCK_OCTETS }
    ensures space { length output.now.frames ≡ 2 }
{
    output.frames[0]
}
