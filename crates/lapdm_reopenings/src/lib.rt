//! Laws of data links whose links are opened again and again. The body of a law is empty: call it to use its contract in a proof.
#![tactic(auto)]

ghost use Rattle.std.specs.Prelude.{◌≡◌, ℕ, List};
ghost use Rattle.lapdm_frame.specs.declared.Channel.{Channel};
ghost use Rattle.lapdm_end.specs.lapdm_window.declared.Sapi.{Sapi};
ghost use Rattle.lapdm_end.specs.lapdm_window.declared.Sapi.TheVariants.{Three};
ghost use Rattle.lapdm_end.specs.lapdm_window.Ends.{Role};
ghost use Rattle.lapdm_datalink.specs.declared.data_links.Establishment.{Establishment};
ghost use Rattle.lapdm_delivery.specs.Runs.{initial_run, sapi_of_endpoint};
ghost use Rattle.lapdm_reopenings.specs.Reopenings.{Event, IsRun, DeliversInEachOpening};

/// Law: two data links on one channel, of which layer 3 of either side opens, releases, gives up and opens again the link of one SAPI,
/// deliver in order in each opening of it, whatever the other link does. The link is that of SAPI 3, or of SAPI 0 with normal
/// establishment.
#[tactic(auto, using(crate::proofs::Runs::deliver_in_each_opening))]
pub fn law_data_links_deliver_in_each_opening()
    ensures { (e : Establishment) (sapi : Sapi) → sapi_of_endpoint e sapi ≡ Three → (channel : Channel) (t200 : Role → Sapi → ℕ)
        → (events : List Event) → IsRun sapi events (initial_run channel e t200)
        → DeliversInEachOpening sapi events (initial_run channel e t200) }
{}
