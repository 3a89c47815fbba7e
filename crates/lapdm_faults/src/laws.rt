//! Laws of faults. The body of a law is empty: call it to use its contract in a proof.

ghost use Rattle.std.specs.Prelude.{◌≡◌, ◌↔◌, ℕ, Some, None};
ghost use Rattle.lapdm_frame.specs.Content.{Frame};
ghost use Rattle.lapdm_end.specs.lapdm_window.Ends.{EndpointState, HasWindowOfOne};
ghost use Rattle.lapdm_datalink.specs.Links.{LinkState};
ghost use Rattle.lapdm_faults.specs.declared.Fault.{Fault as FaultOf};
ghost use Rattle.lapdm_faults.specs.Faults.{CountsSegments, HasNoEffect, fault_of, nr_fault};

/// Law: an N(R) is no fault if and only if it is a number of segments modulo 8 from those acknowledged to those sent.
#[tactic(auto, using(crate::proofs::Faults::counts))]
pub fn law_nr_without_fault_counts_segments()
    ensures { (nr : ℕ) (e : EndpointState) → HasWindowOfOne e → (nr_fault nr e ≡ None) ↔ CountsSegments nr e }
{}

/// Law: a frame that shows a fault acknowledges nothing and ends no link.
pub fn law_faulty_frame_has_no_effect()
    ensures { (f : Frame) (l : LinkState) (fault : FaultOf) → fault_of f l.endpoint ≡ Some fault → HasNoEffect f l }
{}
