//! Laws of links that are opened again and again. The body of a law is empty: call it to use its contract in a proof.
#![tactic(auto)]

ghost use Rattle.std.specs.Prelude.{ℕ, List};
ghost use Rattle.lapdm_frame.specs.declared.Channel.{Channel};
ghost use Rattle.lapdm_end.specs.lapdm_window.Ends.{Role};
ghost use Rattle.lapdm_openings.specs.Pairs.{PairEvent, initial_pair, IsRun};
ghost use Rattle.lapdm_openings.specs.Openings.{DeliversByOpenings};

/// Law: two links of one SAPI that layer 3 of either side opens, releases, gives up and opens again deliver in order in each opening: a
/// side gets a prefix of what the other side sent in one of its openings, these never go back, and what is reported as acknowledged was
/// got before. Layer 3 opens a link again only when the last SABM, DISC or UA of its side, and the answer to it, have arrived or are lost.
#[tactic(auto, using(crate::proofs::Runs::deliver_by_openings))]
pub fn law_links_deliver_in_each_opening()
    ensures { (channel : Channel) (t200 : Role → ℕ) (events : List PairEvent) → IsRun events (initial_pair channel t200)
        → DeliversByOpenings events (initial_pair channel t200) }
{}
