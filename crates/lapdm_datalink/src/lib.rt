//! A data link: one side of a channel, mobile or network, with its loop. It decides what goes into each slot, without a queue or a timer:
//! the frame that awaits an answer is made in its slot, and T200 counts slots. No call allocates memory.
#![tactic(auto)]

mod data_links;
mod laws;
mod links;
mod outlook;
mod parts;

pub use data_links::{DataLink, Establishment, Slot, holds_up_sapi3};
pub use laws::{
    law_answer_waits_for_one_slot, law_final_dm_ends_only_a_link_that_polled,
    law_i_frame_is_answered_in_the_next_slot, law_link_is_established_afresh,
    law_mobile_returns_to_an_open_link, law_normal_link_is_opened_by_either_side,
    law_nr_acknowledges_only_what_was_sent, law_sabm_in_closing_is_refused, law_sapi_0_goes_first,
    law_slot_is_a_step_of_the_endpoint,
};
pub use links::{Link, LinkSlot, any_on_sapi0};
pub use outlook::{LinkOutlook, Outlook};
pub use parts::{DataLinkView, LinkView};
