//! The text of each error.
use std::test::Fail;
use um_io::{Failed, NoMemory};
use um_text::LineFault;

#[test]
fn each_error_has_its_text(rt: HostRuntime) -> Result<(), Fail> {
    let failed = format!(in rt.alloc(); "{Failed}")?;
    assert_eq!(rt; failed.as_str(), "the source or the sink failed");
    let no_memory = format!(in rt.alloc(); "{NoMemory}")?;
    assert_eq!(rt; no_memory.as_str(), "out of memory");
    Ok(())
}

#[test]
fn each_fault_has_its_text(rt: HostRuntime) -> Result<(), Fail> {
    let texts = [
        (LineFault::Long, "the line has more than 4096 octets"),
        (LineFault::Word, "the words fit no line of the command"),
        (LineFault::Order, "the line is not allowed here"),
        (
            LineFault::Digits,
            "a word has a character that is not a digit, or a number that is out of range",
        ),
        (LineFault::Length, "a word has too few or too many digits"),
        (
            LineFault::Soft,
            "a soft value is -128, expected -127 to 127",
        ),
        (
            LineFault::Place,
            "a bit index is above 591, the last bit of a block",
        ),
        (LineFault::Twice, "a bit index occurs twice"),
    ];
    for (fault, text) in texts {
        let shown = format!(in rt.alloc(); "{fault}")?;
        assert_eq!(rt; shown.as_str(), text);
    }
    Ok(())
}
