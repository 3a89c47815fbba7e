//! Laws of a C program that connects endpoints. They stand in this crate, since no crate can depend on a static library. The body of a law
//! is empty: call it to use its contract in a proof.
ghost use Rattle.std.specs.Prelude.{◌≡◌, ℕ, List, length, Some};
ghost use Rattle.lapdm_frame.specs.declared.Channel.{Channel};
ghost use Rattle.um_air.specs.lapdm_link.Claims.{Claims, HasNoticesInOrder, AckedAtMostDelivered};
ghost use Rattle.um_air.specs.lapdm_window.declared.Sapi.{Sapi};
ghost use Rattle.um_air.specs.lapdm_window.Ends.{Role};
ghost use Rattle.um_air.specs.lapdm_window.Calls.{Call};
ghost use Rattle.um_c.specs.declared.states.CEndpoint.{CEndpoint};
ghost use Rattle.um_c.specs.declared.effects.CEffects.{CEffects};
ghost use Rattle.um_c.specs.EndCalls.{EndpointAnswersCall, EndpointReceivesBlock};
ghost use Rattle.um_c.specs.Joined.{ProgramState, ProgramStep, Calls, TakesOldestBlock, TakesOtherSapiBlock, HasNoFrameOnSapi};
ghost use Rattle.um_c.specs.Joined.{IsProgramStep, IsProgramStart, IsProgramRun, DeliversOldestBlock, ReceivesOldestBlock, AnyStepAllowed};
ghost use Rattle.um_c.specs.Joined.{session_log};

use lapdm_frame::BLOCK_OCTETS;

/// If each block that arrives is the oldest in transit to its side, messages are delivered in order and before they are acknowledged
/// (`Claims`), however many blocks are in transit.
#[tactic(auto, using(crate::proofs::Sessions::joined_claims))]
pub fn law_joined_endpoints_deliver_in_order()
    ensures { (channel : Channel) (a z : ProgramState) (turns : List ProgramStep) → IsProgramStart channel a →
        IsProgramRun channel DeliversOldestBlock a turns z → Claims (session_log turns) }
{}

/// Whatever blocks arrive, the program's log stays ordered (`HasNoticesInOrder`).
#[tactic(auto, using(crate::proofs::Sessions::joined_order))]
pub fn law_joined_endpoints_log_is_ordered()
    ensures { (channel : Channel) (a z : ProgramState) (turns : List ProgramStep) → IsProgramStart channel a →
        IsProgramRun channel AnyStepAllowed a turns z → HasNoticesInOrder (session_log turns) }
{}

/// If each block that arrives is the oldest in transit to its side, neither side has more messages acknowledged than the other has
/// delivered.
pub fn law_endpoints_acked_at_most_delivered()
    ensures { (channel : Channel) (a z : ProgramState) (turns : List ProgramStep) → IsProgramStart channel a →
        IsProgramRun channel DeliversOldestBlock a turns z → AckedAtMostDelivered (session_log turns) }
{}

/// If each block that arrives is decoded from lightly damaged bursts of the oldest block in transit to its side, messages are delivered in
/// order (`Claims`), and no endpoint has more messages acknowledged than its peer has delivered.
pub fn law_damaged_bursts_deliver_in_order()
    ensures delivery { (channel : Channel) (a z : ProgramState) (turns : List ProgramStep) → IsProgramStart channel a →
        IsProgramRun channel ReceivesOldestBlock a turns z → Claims (session_log turns) }
    ensures counts { (channel : Channel) (a z : ProgramState) (turns : List ProgramStep) → IsProgramStart channel a →
        IsProgramRun channel ReceivesOldestBlock a turns z → AckedAtMostDelivered (session_log turns) }
{}

/// If a program holds the state of an endpoint, a call with this state is a possible step of the program, whatever the call returns.
pub fn law_program_model_allows_any_call()
    ensures { (channel : Channel) (a : ProgramState) (r : Role) (s : Sapi) (call : Call) (answer : ℕ) (old new : CEndpoint)
        (output_old output : CEffects) →
        a.state r s ≡ Some old → EndpointAnswersCall call answer old new output_old output →
        (b : ProgramState) × IsProgramStep channel a (Calls r s call answer output) b × (b.state r s ≡ Some new) }
{}

/// If a program holds the state of an endpoint, passing a block to this endpoint is a possible step of the program, whatever the call
/// returns.
pub fn law_program_model_allows_any_block()
    ensures { (channel : Channel) (a : ProgramState) (r : Role) (s : Sapi) (block : List ℕ) (answer : ℕ) (old new : CEndpoint)
        (output_old output : CEffects) →
        a.state r s ≡ Some old → length block ≡ BLOCK_OCTETS → EndpointReceivesBlock block answer old new output_old output →
        (b : ProgramState) × IsProgramStep channel a (TakesOldestBlock r s block answer output) b × (b.state r s ≡ Some new) }
{}

/// If a program holds the state of an endpoint, passing it a block that encodes no frame with its SAPI is a possible step of the program;
/// the blocks in transit stay in transit.
pub fn law_program_model_allows_other_sapi_block()
    ensures { (channel : Channel) (a : ProgramState) (r : Role) (s : Sapi) (block : List ℕ) (answer : ℕ) (old new : CEndpoint)
        (output_old output : CEffects) →
        a.state r s ≡ Some old → length block ≡ BLOCK_OCTETS → HasNoFrameOnSapi channel s block →
        EndpointReceivesBlock block answer old new output_old output →
        (b : ProgramState) × IsProgramStep channel a (TakesOtherSapiBlock r s block answer output) b × (b.state r s ≡ Some new) }
{}
