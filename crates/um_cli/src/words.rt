//! Stores the command-line words, and finds the command that they name.
ghost use Rattle.std.specs.Prelude.{◌≡◌, ◌≤◌, ℕ, List, [], map, slice_index, IfSome};
ghost use Rattle.um_cli.specs.WordLists.{command_word_as_stored, words_with_added};
ghost use Rattle.um_cli.specs.Shapes.{one_word_command, command_of_words, parse_link_words, three_word_command, invocation_of_make};
ghost use Rattle.um_cli.specs.Shapes.{invocation_of_end, side_of_word, message_count_of_word, tsc_of_word, HasValidOperands};

/// The command given on the command line, with its operands.
#[derive(Clone, Copy, Debug, PartialEq, Eq)]
pub enum Invocation {
    /// Encodes blocks, access bursts and synchronisation bursts.
    Code,
    /// Decodes bursts.
    Replay,
    /// Converts frames to text and back.
    Show,
    /// Finds the two most likely words for each block or single burst.
    Margin,
    /// Corrects blocks whose wrong bits lie within twelve consecutive bits.
    Repair,
    /// Runs a session of both sides, with the given training sequence code, on the given channel.
    Link(u8, Channel),
    /// Runs a generated session with the given number of messages and the given training sequence code.
    Make(u32, u8),
    /// Runs one side on recorded bursts, with the given training sequence code for the blocks that it sends.
    End(End, u8),
}

use arrayvec::{ArrayString, ArrayVec};
use std::marker::Model;
use um_end::End;
use um_link_command::Channel;

/// The command-line words, without the program's name.
///
/// At most four words of at most eight octets are stored, because no command has more than three words or a word of more than six octets.
#[derive(Drop)]
pub struct Words {
    held: ArrayVec<ArrayString<8>, 4>,
}

// In contracts, a `Words` is the list of stored words, each a list of octets.
impl Model for Words {
    ghost Value = { List (List ℕ) };

    ghost view = { λ w. map (λ word. word.bytes) w.held.items };
}

impl Words {
    /// An empty list of words.
    pub fn new() -> Words
        ensures { result ≡ [] }
    {
        Words {
            held: ArrayVec::new(),
        }
    }

    /// Adds a word. A word of more than eight octets is stored as `?`, and a fifth word is dropped.
    pub fn add(&mut self, word: &str)
        ensures { self.new ≡ words_with_added self.old word.now }
    {
        if !self.held.is_full() {
            self.held.push(store_word(word));
        }
    }

    /// The command that the words name, or `None`.
    pub fn command(&self) -> Option<Invocation>
        ensures command { result ≡ command_of_words self.now }
        ensures fits { IfSome result (λ command. HasValidOperands command) }
    {
        match self.held.as_slice() {
            [word] => one_word_command(word.as_str()),
            [word, tsc] => parse_link_words(word.as_str(), tsc.as_str(), Channel::Sdcch),
            [word, second, last] => three_word_command(
                word.as_str(),
                second.as_str(),
                last.as_str(),
            ),
            _ => None,
        }
    }
}

fn store_word(word: &str) -> ArrayString<8>
    ensures { result.bytes ≡ command_word_as_stored word.now }
{
    match ArrayString::from(word) {
        Ok(held) => held,
        Err(_) => {
            let mut mark = ArrayString::new();
            mark.push('?');
            mark
        }
    }
}

fn three_word_command(word: &str, second: &str, last: &str) -> Option<Invocation>
    ensures command { result ≡ three_word_command word.now second.now last.now }
    ensures fits { IfSome result (λ command. HasValidOperands command) }
{
    if word == "make" {
        parse_make_operands(second, last)
    } else if word == "end" {
        parse_end_operands(second, last)
    } else if last == "sacch" {
        parse_link_words(word, second, Channel::Sacch)
    } else {
        None
    }
}

fn parse_make_operands(count: &str, tsc: &str) -> Option<Invocation>
    ensures command { result ≡ invocation_of_make (message_count_of_word count.now) (tsc_of_word tsc.now) }
    ensures fits { IfSome result (λ command. HasValidOperands command) }
{
    let count = message_count_of_word(count)?;
    Some(Invocation::Make(count, tsc_of_word(tsc)?))
}

fn parse_end_operands(side: &str, tsc: &str) -> Option<Invocation>
    ensures command { result ≡ invocation_of_end (side_of_word side.now) (tsc_of_word tsc.now) }
    ensures fits { IfSome result (λ command. HasValidOperands command) }
{
    let side = side_of_word(side)?;
    Some(Invocation::End(side, tsc_of_word(tsc)?))
}

/// The side that a word names: `mob` or `net`.
fn side_of_word(word: &str) -> Option<End>
    ensures { result ≡ side_of_word word.now }
{
    match word {
        "mob" => Some(End::Mobile),
        "net" => Some(End::Network),
        _ => None,
    }
}

/// The number of messages that a word represents: 1 to 1000, in decimal without leading zeros.
fn message_count_of_word(word: &str) -> Option<u32>
    ensures value { result ≡ message_count_of_word word.now }
    ensures fits { IfSome result (λ n. (1 ≤ n) × (n ≤ 1000)) }
{
    match word.as_bytes() {
        [first, ..] if *first >= b'1' => parse_message_count(word),
        _ => None,
    }
}

/// The number that a word represents, if it is 1 to 1000. The word must not begin with a sign or a zero.
fn parse_message_count(word: &str) -> Option<u32>
    requires { 49 ≤ slice_index word.now 0 }
    ensures value { result ≡ message_count_of_word word.now }
    ensures fits { IfSome result (λ n. (1 ≤ n) × (n ≤ 1000)) }
{
    match word.parse::<u32>() {
        Ok(n) if n >= 1 && n <= 1000 => Some(n),
        _ => None,
    }
}

/// The `link` command on this channel, if the first word is `link` and the second is a training sequence code.
fn parse_link_words(word: &str, tsc: &str, channel: Channel) -> Option<Invocation>
    ensures command { result ≡ parse_link_words word.now tsc.now channel }
    ensures fits { IfSome result (λ command. HasValidOperands command) }
{
    if word == "link" {
        Some(Invocation::Link(tsc_of_word(tsc)?, channel))
    } else {
        None
    }
}

/// The training sequence code that a word represents: one digit, 0 to 7.
fn tsc_of_word(word: &str) -> Option<u8>
    ensures value { result ≡ tsc_of_word word.now }
    ensures fits { IfSome result (λ tsc. tsc ≤ 7) }
{
    match word.as_bytes() {
        [digit] if *digit >= b'0' && *digit <= b'7' => Some(*digit - b'0'),
        _ => None,
    }
}

fn one_word_command(word: &str) -> Option<Invocation>
    ensures command { result ≡ one_word_command word.now }
    ensures fits { IfSome result (λ command. HasValidOperands command) }
{
    match word {
        "code" => Some(Invocation::Code),
        "replay" => Some(Invocation::Replay),
        "show" => Some(Invocation::Show),
        "margin" => Some(Invocation::Margin),
        "repair" => Some(Invocation::Repair),
        _ => None,
    }
}
