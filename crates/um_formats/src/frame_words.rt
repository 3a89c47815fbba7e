//! Splits the text line of a frame into its words, and builds the frame that they describe. A table gives the word and the fields of each
//! frame kind.
ghost use Rattle.std.specs.Prelude.{◌≡◌, ◌-◌, ◌≤◌, ◌∷◌, ℕ, [], not, false, length, slice_index, codes, Some};
ghost use Rattle.std.specs.Prelude.{IsTrue, IfSome, IfNone, MatchResult, map};
ghost use Rattle.std.specs.List.{list_any};
ghost use Rattle.std.specs.Str.{bytes_eq};
ghost use Rattle.lapdm_frame.specs.Content.{Frame, all_frame_kinds, content_of_fields, field_values_of_frame_fields};
ghost use Rattle.lapdm_frame.specs.Frames.{octets_of};
ghost use Rattle.um_lines.specs.Words.{words};
ghost use Rattle.um_lines.specs.Fields.{has_wrong_digits, has_wrong_length, octets_from_hex, is_digit_up_to};
ghost use Rattle.um_lines.specs.Forms.{has_faulty_word, values_of_words};
ghost use Rattle.um_lines.specs.ShowForms.{syntax, prepend_named_digit, info_fields, m_bit_and_info_fields, fields_of_frame_format};
ghost use Rattle.um_lines.specs.ShowForms.{frame_fields};
ghost use Rattle.um_lines.specs.ShowForms as F;
ghost use Rattle.um_formats.specs.ShowLines.{is_bit_set, content_from_values, frame_from_values};
ghost use Rattle.um_formats.specs.ShowReading.{spec_frame_format_of, pf_bit_name, words_fit_fields, first_fault_of_show_words};
ghost use Rattle.um_formats.specs.ShowReading.{begins_with_name_and_value};
ghost use Rattle.um_formats.specs.ShowReading.{is_name_and_value};
ghost use Rattle.um_formats.specs.ShowReading.{field_words, frame_line_words, info_word, min_info_octets};

use crate::digits::{is_digit_up_to, value_of_digit};
use crate::hex_digits::octets_of_hex_word;
use lapdm_frame::{Channel, FrameFields, FrameView, Kind};
use um_block::BLOCK_OCTETS;
use um_lines::{LineFault, first_word, has_octet_count, is_dash_or_hex, parse_two_words};

/// The fields that follow the word that names the frame kind. `WithInfo` and `WithoutInfo` hold the name of the poll or final bit, `p` or
/// `f`.
#[derive(Clone, Copy)]
pub(crate) enum FrameFormat {
    /// The fields of an I frame: `ns N nr N p P m M info HEX`.
    NumberedInfo,
    /// The fields of an RR, RNR or REJ frame: `nr N pf P`.
    Supervisory,
    /// The fields of a SABM, UI or UA frame: `p P info HEX`, or `f P info HEX`.
    WithInfo(&'static [u8]),
    /// The fields of a DISC or DM frame: `p P`, or `f P`.
    WithoutInfo(&'static [u8]),
}

/// The writer and the parser of frame lines both take the fields of a kind from this table.
pub(crate) fn kind_word_and_frame_format(kind: Kind) -> (&'static [u8], FrameFormat)
    ensures word { result.0.now ≡ (syntax kind).word }
    ensures shape { spec_frame_format_of result.1 ≡ (syntax kind).shape }
    ensures size { length result.0.now ≤ 4 }
    ensures name { length (pf_bit_name (spec_frame_format_of result.1)) ≤ 1 }
{
    match kind {
        Kind::I => (b"i", FrameFormat::NumberedInfo),
        Kind::Rr => (b"rr", FrameFormat::Supervisory),
        Kind::Rnr => (b"rnr", FrameFormat::Supervisory),
        Kind::Rej => (b"rej", FrameFormat::Supervisory),
        Kind::Sabm => (b"sabm", FrameFormat::WithInfo(b"p")),
        Kind::Dm => (b"dm", FrameFormat::WithoutInfo(b"f")),
        Kind::Ui => (b"ui", FrameFormat::WithInfo(b"p")),
        Kind::Disc => (b"disc", FrameFormat::WithoutInfo(b"p")),
        Kind::Ua => (b"ua", FrameFormat::WithInfo(b"f")),
    }
}

fn kind_of_word(word: &[u8]) -> Option<Kind>
    ensures known { IfSome result (λ kind. word.now ≡ (syntax kind).word) }
    ensures unknown { IfNone result (list_any (bytes_eq word.now) (map (λ kind. (syntax kind).word) all_frame_kinds) ≡ false) }
{
    match word {
        b"i" => Some(Kind::I),
        b"rr" => Some(Kind::Rr),
        b"rnr" => Some(Kind::Rnr),
        b"rej" => Some(Kind::Rej),
        b"sabm" => Some(Kind::Sabm),
        b"dm" => Some(Kind::Dm),
        b"ui" => Some(Kind::Ui),
        b"disc" => Some(Kind::Disc),
        b"ua" => Some(Kind::Ua),
        _ => None,
    }
}

/// The words for the field values in the text line of a frame, without the field names. Values of fields that the frame kind does not have
/// are not used.
#[derive(Clone, Copy)]
pub(crate) struct FrameFieldWords<'a> {
    pub(crate) ns: &'a [u8],
    pub(crate) nr: &'a [u8],
    pub(crate) pf: &'a [u8],
    pub(crate) more: &'a [u8],
    pub(crate) info: &'a [u8],
}

/// The kind of a frame, and the words for its other values, without the names of the fields.
#[derive(Clone, Copy)]
pub(crate) struct FrameWords<'a> {
    pub(crate) sapi: &'a [u8],
    pub(crate) cr: &'a [u8],
    pub(crate) kind: Kind,
    pub(crate) fields: FrameFieldWords<'a>,
}

/// Splits the text after the word `frame` into fields, or returns the fault `Word`.
pub(crate) fn frame_words<'a>(frame_text: &'a [u8]) -> Result<FrameWords<'a>, LineFault>
    ensures { MatchResult result
        (λ found. codes "frame" ∷ words frame_text.now ≡ frame_line_words found)
        (λ fault. (fault ≡ LineFault.Word)
        × (first_fault_of_show_words (codes "frame" ∷ words frame_text.now) ≡ Some LineFault.Word)) }
{
    let (sapi, rest) = parse_name_and_value(frame_text, b"sapi")?;
    let (cr, rest) = parse_name_and_value(rest, b"cr")?;
    let Some((word, rest)) = first_word(rest) else {
        return Err(LineFault::Word);
    };
    let Some(kind) = kind_of_word(word) else {
        return Err(LineFault::Word);
    };
    let (_, shape) = kind_word_and_frame_format(kind);
    let fields = field_words(shape, rest)?;
    Ok(FrameWords {
        sapi,
        cr,
        kind,
        fields,
    })
}

fn field_words<'a>(shape: FrameFormat, fields: &'a [u8]) -> Result<FrameFieldWords<'a>, LineFault>
    ensures { MatchResult result
        (λ found. words fields.now ≡ field_words (spec_frame_format_of shape) found)
        (λ fault. (fault ≡ LineFault.Word)
        × (words_fit_fields (words fields.now) (fields_of_frame_format (spec_frame_format_of shape)) ≡ false)) }
{
    let (ns, nr, more, none): (&[u8], &[u8], &[u8], &[u8]) = (b"0", b"0", b"0", b"-");
    match shape {
        FrameFormat::NumberedInfo => parse_i_frame_words(fields),
        FrameFormat::Supervisory => {
            let (nr, rest) = parse_name_and_value(fields, b"nr")?;
            let pf = parse_last_name_and_value(rest, b"pf")?;
            Ok(FrameFieldWords {
                ns,
                nr,
                pf,
                more,
                info: none,
            })
        }
        FrameFormat::WithInfo(name) => {
            let (pf, info) = parse_bit_and_information::<0>(fields, name)?;
            Ok(FrameFieldWords {
                ns,
                nr,
                pf,
                more,
                info,
            })
        }
        FrameFormat::WithoutInfo(name) => {
            let pf = parse_last_name_and_value(fields, name)?;
            Ok(FrameFieldWords {
                ns,
                nr,
                pf,
                more,
                info: none,
            })
        }
    }
}

fn parse_i_frame_words<'a>(fields: &'a [u8]) -> Result<FrameFieldWords<'a>, LineFault>
    ensures { MatchResult result
        (λ found. words fields.now ≡ field_words F.NumberedInfo found)
        (λ fault. (fault ≡ LineFault.Word) × (words_fit_fields (words fields.now) (fields_of_frame_format F.NumberedInfo) ≡ false)) }
{
    let (ns, rest) = parse_name_and_value(fields, b"ns")?;
    let (nr, rest) = parse_name_and_value(rest, b"nr")?;
    let (pf, more, info) = parse_p_bit_m_bit_and_info(rest)?;
    Ok(FrameFieldWords {
        ns,
        nr,
        pf,
        more,
        info,
    })
}

fn parse_p_bit_m_bit_and_info<'a>(
    fields: &'a [u8],
) -> Result<(&'a [u8], &'a [u8], &'a [u8]), LineFault>
    ensures { MatchResult result
        (λ all. words fields.now ≡ codes "p" ∷ all.0.now ∷ codes "m" ∷ all.1.now ∷ codes "info" ∷ all.2.now ∷ [])
        (λ fault. (fault ≡ LineFault.Word) × (words_fit_fields (words fields.now)
        (prepend_named_digit (codes "p") 1 m_bit_and_info_fields) ≡ false)) }
{
    let (p, rest) = parse_name_and_value(fields, b"p")?;
    let (m, info) = parse_bit_and_information::<1>(rest, b"m")?;
    Ok((p, m, info))
}

/// Returns the words for the value of the named bit and for the information, which follows it. Only the contract uses `LEAST`, the minimum
/// number of information octets: their number is tested after all digits, because the fault `Digits` comes before `Length`.
fn parse_bit_and_information<'a, const LEAST: usize>(
    fields: &'a [u8],
    name: &[u8],
) -> Result<(&'a [u8], &'a [u8]), LineFault>
    ensures { MatchResult result
        (λ both. words fields.now ≡ name.now ∷ both.0.now ∷ codes "info" ∷ both.1.now ∷ [])
        (λ fault. (fault ≡ LineFault.Word) × (words_fit_fields (words fields.now) (prepend_named_digit name.now 1 (info_fields LEAST))
        ≡ false)) }
{
    let (pf, rest) = parse_name_and_value(fields, name)?;
    let info = parse_last_name_and_value(rest, b"info")?;
    Ok((pf, info))
}

/// Returns the value after this name and the text after that value, or the fault `Word` if the text does not consist of the name, a value
/// and at least one more word.
fn parse_name_and_value<'a>(
    fields: &'a [u8],
    name: &[u8],
) -> Result<(&'a [u8], &'a [u8]), LineFault>
    ensures { MatchResult result
        (λ both. words fields.now ≡ name.now ∷ both.0.now ∷ words both.1.now)
        (λ fault. (fault ≡ LineFault.Word) × (begins_with_name_and_value name.now (words fields.now) ≡ false)) }
{
    let Some((word, rest)) = first_word(fields) else {
        return Err(LineFault::Word);
    };
    let Some((value, rest)) = first_word(rest) else {
        return Err(LineFault::Word);
    };
    if word == name {
        Ok((value, rest))
    } else {
        Err(LineFault::Word)
    }
}

/// Returns the value after this name, or the fault `Word` if the text does not consist of exactly the name and a value.
fn parse_last_name_and_value<'a>(fields: &'a [u8], name: &[u8]) -> Result<&'a [u8], LineFault>
    ensures { MatchResult result
        (λ value. words fields.now ≡ name.now ∷ value.now ∷ [])
        (λ fault. (fault ≡ LineFault.Word) × (is_name_and_value name.now (words fields.now) ≡ false)) }
{
    let (word, value) = parse_two_words(fields)?;
    if word == name {
        Ok(value)
    } else {
        Err(LineFault::Word)
    }
}

impl FrameWords<'_> {
    /// Whether every word consists of characters that its field allows, and every number is in range.
    pub(crate) fn have_valid_digits(&self) -> bool
        ensures { result ≡ not (has_faulty_word has_wrong_digits (frame_fields (syntax self.now.kind)) (frame_line_words self.now)) }
    {
        is_digit_up_to(7, self.sapi)
            & is_digit_up_to(1, self.cr)
            & self
                .fields
                .have_valid_digits(kind_word_and_frame_format(self.kind).1)
    }

    /// Whether the frame has at most 20 octets of information, and an I frame at least one.
    pub(crate) fn has_valid_info_length(&self) -> bool
        ensures { result ≡ not (has_faulty_word has_wrong_length (frame_fields (syntax self.now.kind)) (frame_line_words self.now)) }
    {
        let (_, shape) = kind_word_and_frame_format(self.kind);
        has_octet_count(
            shape.min_info_octets(),
            Some(20),
            self.fields.info_word(shape),
        )
    }

    /// Returns the canonical coding of the frame on SDCCH.
    pub(crate) fn octets(&self) -> [u8; BLOCK_OCTETS]
        requires digits { has_faulty_word has_wrong_digits (frame_fields (syntax self.now.kind)) (frame_line_words self.now) ≡ false }
        requires length { has_faulty_word has_wrong_length (frame_fields (syntax self.now.kind)) (frame_line_words self.now) ≡ false }
        ensures { (f : Frame)
            × (frame_from_values (F.Frame self.now.kind) (values_of_words (frame_fields (syntax self.now.kind))
            (frame_line_words self.now)) ≡ Some f)
            × (result ≡ octets_of Channel.Sdcch f) }
    {
        let (_, shape) = kind_word_and_frame_format(self.kind);
        let (room, count) = octets_of_hex_word(self.fields.info_word(shape));
        let sapi = value_of_digit(self.sapi);
        let cr = is_digit_one(self.cr);
        let body = self
            .fields
            .frame_fields_of_kind(self.kind, shape, &room[..count])
            .body();
        lapdm_frame::write(&FrameView { sapi, cr, body })
    }
}

impl FrameFormat {
    fn min_info_octets(self) -> usize
        ensures { result ≡ min_info_octets (spec_frame_format_of self) }
    {
        match self {
            FrameFormat::NumberedInfo => 1,
            _ => 0,
        }
    }
}

impl<'a> FrameFieldWords<'a> {
    fn have_valid_digits(&self, shape: FrameFormat) -> bool
        ensures { result ≡ not (has_faulty_word has_wrong_digits (fields_of_frame_format (spec_frame_format_of shape))
            (field_words (spec_frame_format_of shape) self.now)) }
    {
        match shape {
            FrameFormat::NumberedInfo => {
                is_digit_up_to(7, self.ns)
                    & is_digit_up_to(7, self.nr)
                    & is_digit_up_to(1, self.pf)
                    & is_digit_up_to(1, self.more)
                    & is_dash_or_hex(self.info)
            }
            FrameFormat::Supervisory => is_digit_up_to(7, self.nr) & is_digit_up_to(1, self.pf),
            FrameFormat::WithInfo(_) => is_digit_up_to(1, self.pf) & is_dash_or_hex(self.info),
            FrameFormat::WithoutInfo(_) => is_digit_up_to(1, self.pf),
        }
    }

    fn info_word(&self, shape: FrameFormat) -> &'a [u8]
        ensures { result.now ≡ info_word (spec_frame_format_of shape) self.now }
    {
        match shape {
            FrameFormat::NumberedInfo | FrameFormat::WithInfo(_) => self.info,
            FrameFormat::Supervisory | FrameFormat::WithoutInfo(_) => b"-",
        }
    }

    fn frame_fields_of_kind<'b>(
        &self,
        kind: Kind,
        shape: FrameFormat,
        info: &'b [u8],
    ) -> FrameFields<'b>
        requires digits { has_faulty_word has_wrong_digits (fields_of_frame_format (spec_frame_format_of shape))
            (field_words (spec_frame_format_of shape) self.now) ≡ false }
        requires octets { info.now ≡ octets_from_hex (info_word (spec_frame_format_of shape) self.now) }
        ensures said { content_from_values (spec_frame_format_of shape) kind
            (values_of_words (fields_of_frame_format (spec_frame_format_of shape)) (field_words (spec_frame_format_of shape) self.now))
            ≡ Some (content_of_fields (field_values_of_frame_fields result)) }
        ensures kind { result.kind ≡ kind }
        ensures ns_nr_fit { (result.ns ≤ 7) × (result.nr ≤ 7) }
        ensures information { result.info.now ≡ info.now }
    {
        let pf = is_digit_one(self.pf);
        let bare = FrameFields {
            kind,
            ns: 0,
            nr: 0,
            pf,
            more: false,
            info,
        };
        match shape {
            FrameFormat::NumberedInfo => FrameFields {
                ns: value_of_digit(self.ns),
                nr: value_of_digit(self.nr),
                more: is_digit_one(self.more),
                ..bare
            },
            FrameFormat::Supervisory => FrameFields {
                nr: value_of_digit(self.nr),
                ..bare
            },
            FrameFormat::WithInfo(_) | FrameFormat::WithoutInfo(_) => bare,
        }
    }
}

fn is_digit_one(word: &[u8]) -> bool
    requires { IsTrue (is_digit_up_to 1 word.now) }
    ensures { result ≡ is_bit_set (slice_index word.now 0 - 48) }
{
    word[0] == b'1'
}
