//! Parses the input lines of `code`, `replay` and `show`, and writes their output lines.
#![tactic(auto)]

mod burst_lines;
mod bursts;
mod code;
mod digits;
mod frame_words;
mod frames;
mod held;
mod hex_digits;
mod laws;
mod reports;
mod show;
mod soft_digits;

pub use burst_lines::{
    BurstLine, law_burst_line_meaning_is_unique, law_written_bursts_read_back, parse_burst,
    parse_burst_words,
};
pub use bursts::{access_line, normal_line, push_block, sync_line, write_block_burst_lines};
pub use code::{CodeLine, law_code_line_meaning_is_unique, parse_code};
pub use frames::{frame_line, octets_line};
pub use held::{BurstsToDecode, HeldBursts, hold_normal_burst, parse_and_hold_burst};
pub use laws::{
    law_lines_with_a_form_are_not_skipped, law_read_lines_are_meanings_or_faults,
    law_text_of_octets_is_that_of_their_frame,
};
pub use reports::{access_report, block_report, sync_report};
pub use show::{
    ShowLine, law_show_line_meaning_is_unique, law_written_frames_read_back, parse_show,
};
pub use um_block::{
    BLOCK_BITS, BLOCK_OCTETS, BURST_BITS, Bits, Received, ReceivedAccess, ReceivedSync,
    from_octets, to_octets,
};
pub use um_lines::{LineFault, Text, law_words_join_to_line, octets_from_bits_at, refused_line};
