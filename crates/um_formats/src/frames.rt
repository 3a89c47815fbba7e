//! Writes frames as text lines.
ghost use Rattle.std.specs.Prelude.{◌≡◌, ℕ, ◌+◌, ◌<◌, ◌≤◌, List, [], ◌∷◌, ◌++◌, length, codes};
ghost use Rattle.lapdm_frame.specs.Content.{frame_of_view, field_values_of_frame_fields};
ghost use Rattle.lapdm_frame.specs.Frames.{bit_of_bool, FrameFits};
ghost use Rattle.um_lines.specs.Fields.{FixedWord};
ghost use Rattle.um_lines.specs.ShowForms.{fields_of_frame_format};
ghost use Rattle.um_lines.specs.LineTexts.{octets_word, line_of_values};
ghost use Rattle.um_formats.specs.FrameTexts.{line_values_of_fields, frame_text, refusal_word, unreadable_frame_text, octets_text};
ghost use Rattle.um_formats.specs.FrameTexts.{IsTextOfOctets, text_of_octets};
ghost use Rattle.um_formats.specs.ShowReading.{spec_frame_format_of, pf_bit_name, digit};

use crate::frame_words::{FrameFormat, kind_word_and_frame_format};
use lapdm_frame::{Channel, FrameFields, FrameView, Refusal};
use um_block::BLOCK_OCTETS;
use um_lines::Text;

/// Writes the text line of the frame in an SDCCH block, or the line `unread REASON` if the block does not hold a valid frame.
pub fn frame_line(out: &mut Text, octets: &[u8; BLOCK_OCTETS])
    requires { out.old ≡ [] }
    ensures line { IsTextOfOctets octets.now out.new }
    ensures value { out.new ≡ text_of_octets octets.now }
    ensures size { length out.new < 2000 }
{
    push_frame(out, octets);
}

/// Writes the line `octets HEX46` for 23 octets.
pub fn octets_line(out: &mut Text, octets: &[u8; BLOCK_OCTETS])
    requires { out.old ≡ [] }
    ensures line { out.new ≡ octets_text octets.now }
    ensures size { length out.new < 2000 }
{
    out.push(b"octets ");
    out.push_hex(octets);
    out.push(b"\n");
}

/// Appends what `frame_line` writes.
pub(crate) fn push_frame(out: &mut Text, octets: &[u8; BLOCK_OCTETS])
    requires { length out.old + 100 ≤ 4096 }
    ensures text { (text : List ℕ) × IsTextOfOctets octets.now text × (out.new ≡ out.old ++ text) }
    ensures length { length out.new ≤ length out.old + 100 }
{
    match lapdm_frame::read(octets) {
        Ok(f) => push_frame_view(out, &f),
        Err(reason) => push_unreadable_frame_line(out, reason),
    }
}

fn push_frame_view(out: &mut Text, view: &FrameView<'_>)
    requires space { length out.old + 100 ≤ 4096 }
    requires fits { FrameFits Channel.Sdcch (frame_of_view view.now) }
    ensures text { out.new ≡ out.old ++ frame_text (frame_of_view view.now) }
    ensures length { length out.new ≤ length out.old + 100 }
{
    let fields = view.body.fields();
    let (word, shape) = kind_word_and_frame_format(fields.kind);
    push_number(out, b"frame sapi ", view.sapi);
    push_named_bit(out, b" cr ", view.cr);
    push_fields(out, word, shape, &fields);
    out.push(b"\n");
}

fn push_fields(out: &mut Text, kind_word: &[u8], shape: FrameFormat, fields: &FrameFields<'_>)
    requires space { length out.old + 75 ≤ 4096 }
    requires size { length kind_word.now ≤ 4 }
    requires name { length (pf_bit_name (spec_frame_format_of shape)) ≤ 1 }
    requires ns_nr_fit { (fields.now.ns ≤ 7) × (fields.now.nr ≤ 7) }
    requires information { length fields.now.info.now ≤ 20 }
    ensures text { out.new ≡ out.old ++ 32 ∷ line_of_values
        (FixedWord kind_word.now ∷ fields_of_frame_format (spec_frame_format_of shape))
        (line_values_of_fields (spec_frame_format_of shape) (field_values_of_frame_fields fields.now)) }
    ensures length { length out.new ≤ length out.old + 75 }
{
    out.push(b" ");
    out.push(kind_word);
    match shape {
        FrameFormat::NumberedInfo => {
            push_i_frame_fields(out, fields);
            push_info(out, fields.info);
        }
        FrameFormat::Supervisory => {
            push_number(out, b" nr ", fields.nr);
            push_named_bit(out, b" pf ", fields.pf);
        }
        FrameFormat::WithInfo(name) => {
            push_space_and_named_bit(out, name, fields.pf);
            push_info(out, fields.info);
        }
        FrameFormat::WithoutInfo(name) => push_space_and_named_bit(out, name, fields.pf),
    }
}

fn push_i_frame_fields(out: &mut Text, fields: &FrameFields<'_>)
    requires space { length out.old + 18 ≤ 4096 }
    requires ns_nr_fit { (fields.now.ns ≤ 7) × (fields.now.nr ≤ 7) }
    ensures text { out.new ≡ out.old ++ (codes " ns " ++ digit fields.now.ns ++ codes " nr " ++ digit fields.now.nr
        ++ codes " p " ++ digit (bit_of_bool fields.now.pf) ++ codes " m " ++ digit (bit_of_bool fields.now.more)) }
    ensures length { length out.new ≡ length out.old + 18 }
{
    push_number(out, b" ns ", fields.ns);
    push_number(out, b" nr ", fields.nr);
    push_named_bit(out, b" p ", fields.pf);
    push_named_bit(out, b" m ", fields.more);
}

fn push_space_and_named_bit(out: &mut Text, name: &[u8], bit: bool)
    requires space { length out.old + length name.now + 3 ≤ 4096 }
    ensures text { out.new ≡ out.old ++ 32 ∷ (name.now ++ 32 ∷ digit (bit_of_bool bit)) }
    ensures length { length out.new ≡ length out.old + length name.now + 3 }
{
    out.push(b" ");
    out.push(name);
    push_named_bit(out, b" ", bit);
}

fn push_number(out: &mut Text, name: &[u8], number: u8)
    requires space { length out.old + length name.now + 1 ≤ 4096 }
    requires number { number ≤ 7 }
    ensures text { out.new ≡ out.old ++ (name.now ++ digit number) }
    ensures length { length out.new ≡ length out.old + length name.now + 1 }
{
    out.push(name);
    out.push(&[b'0' + number]);
}

fn push_named_bit(out: &mut Text, name: &[u8], bit: bool)
    requires space { length out.old + length name.now + 1 ≤ 4096 }
    ensures text { out.new ≡ out.old ++ (name.now ++ digit (bit_of_bool bit)) }
    ensures length { length out.new ≡ length out.old + length name.now + 1 }
{
    out.push(name);
    out.push(if bit { b"1" } else { b"0" });
}

fn push_info(out: &mut Text, info: &[u8])
    requires space { length out.old + 46 ≤ 4096 }
    requires size { length info.now ≤ 20 }
    ensures text { out.new ≡ out.old ++ (codes " info " ++ octets_word info.now) }
    ensures length { length out.new ≤ length out.old + 46 }
{
    out.push(b" info ");
    if info.is_empty() {
        out.push(b"-");
    } else {
        out.push_hex(info);
    }
}

fn push_unreadable_frame_line(out: &mut Text, reason: Refusal)
    requires { length out.old + 15 ≤ 4096 }
    ensures text { out.new ≡ out.old ++ unreadable_frame_text reason }
    ensures length { length out.new ≤ length out.old + 15 }
{
    out.push(b"unread ");
    out.push(word_of_refusal(reason));
    out.push(b"\n");
}

fn word_of_refusal(reason: Refusal) -> &'static [u8]
    ensures word { result.now ≡ refusal_word reason }
    ensures size { length result.now ≤ 7 }
{
    match reason {
        Refusal::Lpd => b"lpd",
        Refusal::Ea => b"ea",
        Refusal::Control => b"control",
        Refusal::El => b"el",
        Refusal::Length => b"length",
        Refusal::Empty => b"empty",
        Refusal::More => b"more",
    }
}
