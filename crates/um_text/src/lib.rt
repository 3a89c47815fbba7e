//! Re-exports the items of `um_formats` and `um_script` that parse and write lines of text.
#![tactic(auto)]

pub use um_formats::{
    BLOCK_BITS, BLOCK_OCTETS, Bits, BurstLine, CodeLine, LineFault, Received, ReceivedAccess,
    ReceivedSync, ShowLine, Text, access_line, access_report, block_report, frame_line,
    from_octets, law_burst_line_meaning_is_unique, law_code_line_meaning_is_unique,
    law_show_line_meaning_is_unique, law_words_join_to_line, law_written_bursts_read_back,
    law_written_frames_read_back, normal_line, octets_line, parse_burst, parse_code, parse_show,
    refused_line, sync_line, sync_report, to_octets, write_block_burst_lines,
};
pub use um_script::{
    Room, ScriptLine, law_answer_text_determines_lines, law_script_line_meaning_is_unique,
    parse_script, step_lines,
};
