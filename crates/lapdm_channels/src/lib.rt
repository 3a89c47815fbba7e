//! Laws of messages that layer 3 sends over one channel after another. The body of a law is empty: call it to use its contract in a proof.
#![tactic(auto)]

ghost use Rattle.std.specs.Prelude.{All, Bool, List, map};
ghost use Rattle.lapdm_end.specs.lapdm_window.segmenting.Segments.{Message};
ghost use Rattle.lapdm_end.specs.lapdm_window.declared.Sapi.{Sapi};
ghost use Rattle.lapdm_end.specs.lapdm_window.Ends.{Role};
ghost use Rattle.lapdm_channels.specs.Changes.{Stay, Delivers, SendsFromUnacked, Alternates, TakesEachOnce};
ghost use Rattle.lapdm_channels.specs.Changes.{OnChannel, stay_on, IsOneByOne};

/// Law: if layer 3 begins on each channel with the first message that was not acknowledged before, and the data links of each channel
/// deliver in order, and at most one message more than is acknowledged, then a receiver that drops a message with the N(SD) of the last
/// that it took takes each message once and in order, whatever channels follow each other.
#[tactic(auto, using(crate::proofs::Changes::takes_each_once))]
pub fn law_messages_come_once_over_changes_of_channel()
    ensures { (nsd : Message → Bool) (messages : List Message) (stays : List Stay) → Alternates nsd messages
        → SendsFromUnacked messages stays → All Delivers stays → TakesEachOnce nsd messages stays }
{}

/// Law: so messages that layer 3 passes one by one to new data links on each channel, of either kind of establishment, are taken once each
/// and in order, whatever is lost on each channel and whenever it is left.
#[tactic(auto, using(crate::proofs::Stays::taken_once))]
pub fn law_data_links_deliver_once_over_changes_of_channel()
    ensures { (nsd : Message → Bool) (messages : List Message) (role : Role) (sapi : Sapi) (channels : List OnChannel)
        → Alternates nsd messages → SendsFromUnacked messages (map (stay_on role sapi) channels)
        → All (IsOneByOne role sapi) channels → TakesEachOnce nsd messages (map (stay_on role sapi) channels) }
{}
