//! Runs of the `margin` command on values computed by hand, and lines that it refuses.
use crate::code::{ACCESS_BURST_OF_ZEROS, SYNC_BURST};
use crate::outside::{StreamLimits, check_refusal, check_run, check_run_in_pieces};
use crate::replay::BURSTS_WITH_THREE_WRONG_BITS;
use std::test::Fail;
use um_cli::Status;

/// The report on four lost bursts: all words are equally likely, and `margin` reports the first two in lexicographic order.
const TIE_REPORT: &[u8] =
    b"block margin 0 metric 0 data 0000000000000000000000000000000000000000000000 check 0000000000 \
next 0000000000000000000000000000000000000000000000 0000000080\n";

#[test]
fn all_words_tie_for_four_lost_bursts(rt: HostRuntime) {
    check_run_in_pieces(
        &rt,
        &["margin"],
        b"lost\nlost\n# comment\n\nlost\nlost",
        Status::Done,
        TIE_REPORT,
    );
}

// The words that begin with 100 and with 111 both have seven ones among their coded bits, the first of them at index 0, so they are equally
// likely in this test.
#[test]
fn the_lexicographically_later_of_two_tied_words_is_the_second(rt: HostRuntime) {
    check_run(
        &rt,
        &["margin"],
        b"A 111111 000000000000000000000000000000000000000000000000000000000000000000000000000000000000000000000\
00000f90101010101010101010101010101010101010101010101010101010101010101010101000000\n",
        StreamLimits::moving_at_most(1000),
        Status::Done,
        b"access 111111 margin 0 metric 30 data 10000000 check 000000 next 11100000 000000\n",
    );
}

#[test]
fn undamaged_words_lead_by_seven_bits(rt: HostRuntime) {
    check_run(
        &rt,
        &["margin"],
        ACCESS_BURST_OF_ZEROS,
        StreamLimits::moving_at_most(1000),
        Status::Done,
        b"access 111111 margin 1778 metric 4572 data 00000000 check 000000 next 00000000 000001\n",
    );
    check_run(
        &rt,
        &["margin"],
        SYNC_BURST,
        StreamLimits::moving_at_most(1000),
        Status::Done,
        b"sync margin 1778 metric 9906 data 0000000000000000000000000 check 1111111111 next 0000000000000000000000000 0001111111\n",
    );
}

// In this test, the second most likely word comes before the most likely one in lexicographic order.
#[test]
fn each_wrong_bit_towards_the_second_word_lowers_the_margin_by_508(rt: HostRuntime) {
    check_run(
        &rt,
        &["margin"],
        BURSTS_WITH_THREE_WRONG_BITS,
        StreamLimits::moving_at_most(1000),
        Status::Done,
        b"block margin 1270 metric 57150 data 0303012b2b2b2b2b2b2b2b2b2b2b2b2b2b2b2b2b2b2b2b check 2c4e540233 \
next 0301012b2b2b2b2b2b2b2b2b2b2b2b2b2b2b2b2b2b2b2b 2c4e540233\n",
    );
}

#[test]
fn margin_refuses_an_unfinished_block(rt: HostRuntime) -> Result<(), Fail> {
    check_refusal(&rt, &["margin"], b"lost\n\n#\n", 4, "order")?;
    check_run(
        &rt,
        &["margin"],
        b"lost\nlost\nlost\nlost\nlost\na xx yy\n",
        StreamLimits::moving_at_most(1000),
        Status::BadInput,
        b"block margin 0 metric 0 data 0000000000000000000000000000000000000000000000 check 0000000000 \
next 0000000000000000000000000000000000000000000000 0000000080\n\
refused 6 order\n",
    );
    Ok(())
}
