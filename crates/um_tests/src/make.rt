//! Runs of the `make` command. A separate script computed the numbers from the definition of the generated session.
use crate::outside::{StreamLimits, check_run, check_run_in_pieces};
use std::test::Fail;
use um_cli::{MemorySink, PlainRadio, PlainSource, Source, Status, Words, run};

/// What `make` writes for three messages of 38, 75 and 112 octets. They have 2, 4 and 6 segments, which take 13 transmissions because the
/// eighth is lost.
const THREE_MESSAGES_SUMMARY: &[u8] = b"make 3 5
steps 32 sends 27 takes 26 drops 0 lost 1
mob got 1 octets 75 sum 2925 acked 2
net got 2 octets 150 sum 7293 acked 1
";

const THOUSAND_MESSAGES_SUMMARY: &[u8] = b"make 1000 7
steps 16505 sends 14536 takes 13568 drops 0 lost 968
mob got 500 octets 63073 sum 8091295 acked 500
net got 500 octets 62896 sum 8070023 acked 500
";

/// Invalid command lines: `make` takes exactly a number of messages, 1 to 1000, and a training sequence code, 0 to 7.
const INVALID_WORDS: [&[&str]; 11] = [
    &["make"],
    &["make", "3"],
    &["make", "007", "1"],
    &["make", "0", "1"],
    &["make", "1001", "1"],
    &["make", "+3", "1"],
    &["make", "3x", "1"],
    &["make", "", "1"],
    &["make", "3", "8"],
    &["make", "3", "sacch"],
    &["make", "3", "5", "sacch"],
];

#[test]
fn a_generated_session_is_summed_up_and_nothing_is_read(rt: HostRuntime) {
    let words = ["make", "3", "5"];
    check_run_in_pieces(&rt, &words, b"foo\n", Status::Done, THREE_MESSAGES_SUMMARY);
    let failing = StreamLimits::failing(7, &[1], &[]);
    check_run(
        &rt,
        &words,
        b"foo\n",
        failing,
        Status::Done,
        THREE_MESSAGES_SUMMARY,
    );
}

#[test]
fn the_longest_generated_session_gives_the_same_summary_twice(rt: HostRuntime) {
    let words = ["make", "1000", "7"];
    let ample = StreamLimits::moving_at_most(100);
    check_run(
        &rt,
        &words,
        b"",
        ample,
        Status::Done,
        THOUSAND_MESSAGES_SUMMARY,
    );
    check_run(
        &rt,
        &words,
        b"",
        ample,
        Status::Done,
        THOUSAND_MESSAGES_SUMMARY,
    );
}

#[test]
fn a_failed_write_leaves_a_prefix_of_the_summary(rt: HostRuntime) {
    let words = ["make", "3", "5"];
    let first = StreamLimits::failing(50, &[], &[1]);
    check_run(&rt, &words, b"", first, Status::WriteFault, b"");
    let third = StreamLimits::failing(50, &[], &[3]);
    check_run(
        &rt,
        &words,
        b"",
        third,
        Status::WriteFault,
        &THREE_MESSAGES_SUMMARY[..100],
    );
    check_run(
        &rt,
        &words,
        b"",
        StreamLimits::with_sink_capacity(0),
        Status::WriteFault,
        b"",
    );
}

#[test]
fn the_radio_is_called_for_each_generated_block(rt: HostRuntime) -> Result<(), Fail> {
    let mut words = Words::new();
    for word in ["make", "3", "5"] {
        words.add(word);
    }
    let mut source = PlainSource::new(b"foo\n", 100);
    let mut sink = MemorySink::new(rt.alloc(), 200, 200, &[])
        .ok()
        .ok_or("no memory")?;
    let mut radio = PlainRadio::new();
    let status = run(rt.alloc(), &words, &mut source, &mut sink, &mut radio);
    assert_eq!(&rt; status, Status::Done);
    assert_eq!(&rt; radio.sent(), 27);
    assert_eq!(&rt; radio.heard(), 26);
    assert_eq!(&rt; source.take(&mut [0; 100]), Ok(4));
    Ok(())
}

#[test]
fn other_words_name_no_generated_session(rt: HostRuntime) {
    for words in INVALID_WORDS {
        let ample = StreamLimits::moving_at_most(100);
        check_run(&rt, words, b"", ample, Status::BadWords, b"");
    }
}
