//! The library for C and for languages that can call C: blocks, bursts, frames and endpoints.
//!
//! Each exported function checks all preconditions, so a caller only has to respect the types. No function allocates memory, keeps state or
//! waits, and any thread may call any of them. `bindings/c/um.h` declares them.
//!
//! An answer is a number of 32 bits, below 256, so that a caller reads it right whether it takes an enum to have one octet or four.
#![tactic(auto)]

mod answers;
mod b4;
mod blocks;
mod bursts;
mod ciphers;
mod datalink_calls;
mod datalinks;
mod effects;
mod ends;
mod erasing;
mod facch;
mod facch_erasing;
mod faults;
mod frames;
mod joined;
mod layout;
mod limited;
mod margins;
mod opening;
mod places;
mod repairs;
mod sides;
mod slots;
mod soft;
mod states;
mod times;
mod traffic;
mod traffic_places;
mod traffic_senders;
mod version;

pub use datalinks::{
    law_equal_data_links_have_equal_structs, law_joined_data_links_deliver_in_order,
};
pub use joined::{
    law_damaged_bursts_deliver_in_order, law_endpoints_acked_at_most_delivered,
    law_joined_endpoints_deliver_in_order, law_joined_endpoints_log_is_ordered,
    law_program_model_allows_any_block, law_program_model_allows_any_call,
    law_program_model_allows_other_sapi_block,
};
pub use opening::open_link;
pub use states::law_equal_endpoints_have_equal_structs;
