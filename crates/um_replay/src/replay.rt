//! The `replay` command: decodes recorded bursts, given as hard or soft bits.
ghost use Rattle.um_replay.specs.Replay.{replay_answers};

use crate::reports::Reports;
use um_block::{BURST_BITS, Bits, receive_access, receive_block, receive_sync};
use um_formats::{Text, access_report, block_report, sync_report};

/// Decodes each block or single burst, and reports the result.
#[derive(Drop)]
pub struct Replay {}

impl Reports for Replay {
    ghost answers = { replay_answers };

    fn block(&self, out: &mut Text, bursts: &[[i8; BURST_BITS]; 4]) {
        block_report(out, &receive_block(bursts));
    }

    fn access(&self, out: &mut Text, bsic: &Bits<6>, burst: &[i8; 88]) {
        let _ = bsic.as_slice();
        access_report(out, bsic, &receive_access(burst, bsic));
    }

    fn sync(&self, out: &mut Text, burst: &[i8; BURST_BITS]) {
        sync_report(out, &receive_sync(burst));
    }
}
