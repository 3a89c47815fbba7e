//! LAPDm frames of formats A and B (GSM 04.06), read from and written to blocks of 23 octets. No call allocates memory; a frame that is
//! read borrows its information from the block.
#![tactic(auto)]

ghost use Rattle.std.specs.Prelude.{◌≡◌, ◌+◌, false, [], slice_get};
ghost use Rattle.lapdm_frame.specs.Content.{fields, field_values_of_frame_fields};

mod laws;
mod reader;
mod writer;

pub use bit_blocks::BLOCK_OCTETS;
pub use laws::{law_canonical_frame_coding_is_unique, law_frame_reading_is_unique};
pub use reader::{read, read_on};
use thiserror::Error;
pub use writer::{fill, fill_on, fits, fits_on, write, write_on};

/// The control channel of a block. It determines where the fields of a frame are.
#[derive(Clone, Copy, PartialEq, Eq, Debug)]
pub enum Channel {
    /// Stand-alone dedicated control channel. A block has address, control and length octets, then 20 octets of information and fill.
    Sdcch,
    /// Slow associated control channel. A block has two layer 1 octets, address, control and length octets, then 18 octets of information
    /// and fill.
    Sacch,
}

impl Channel {
    ghost use Rattle.lapdm_frame.specs.Layout.{layer1_octet_count, n201};

    /// Returns N201 of GSM 04.06: the maximum number of information octets in a frame, 20 or 18.
    pub fn n201(self) -> usize
        ensures { result ≡ n201 self }
    {
        match self {
            Channel::Sdcch => 20,
            Channel::Sacch => 18,
        }
    }

    // Returns the number of layer 1 octets, which is the index of the address octet in a block.
    fn layer1_octet_count(self) -> usize
        ensures value { result ≡ layer1_octet_count self }
        ensures space { result + 3 + n201 self ≡ BLOCK_OCTETS }
    {
        match self {
            Channel::Sdcch => 0,
            Channel::Sacch => 2,
        }
    }
}

/// A frame whose information is borrowed from the block.
#[derive(Clone, Copy, PartialEq, Eq, Debug)]
pub struct FrameView<'a> {
    /// The service access point identifier, 0 to 7.
    pub sapi: u8,
    /// The command/response bit: 1 in commands of the network and responses of the mobile.
    pub cr: bool,
    pub body: Body<'a>,
}

/// The kind of a frame with its fields: N(S) and N(R), each 0 to 7, the P or F bit, the M bit (`more`: the message continues in the next I
/// frame), and the information.
#[derive(Clone, Copy, PartialEq, Eq, Debug)]
pub enum Body<'a> {
    I {
        ns: u8,
        nr: u8,
        p: bool,
        more: bool,
        info: &'a [u8],
    },
    Rr {
        nr: u8,
        pf: bool,
    },
    Rnr {
        nr: u8,
        pf: bool,
    },
    Rej {
        nr: u8,
        pf: bool,
    },
    Sabm {
        p: bool,
        info: &'a [u8],
    },
    Dm {
        f: bool,
    },
    Ui {
        p: bool,
        info: &'a [u8],
    },
    Disc {
        p: bool,
    },
    Ua {
        f: bool,
        info: &'a [u8],
    },
}

/// A kind of frame, in the order of their numbers.
#[derive(Clone, Copy, PartialEq, Eq, Debug)]
pub enum Kind {
    I,
    Rr,
    Rnr,
    Rej,
    Sabm,
    Dm,
    Ui,
    Disc,
    Ua,
}

/// All frame kinds; the index of each kind is its number.
const KINDS: [Kind; 9] = [
    Kind::I,
    Kind::Rr,
    Kind::Rnr,
    Kind::Rej,
    Kind::Sabm,
    Kind::Dm,
    Kind::Ui,
    Kind::Disc,
    Kind::Ua,
];

impl Kind {
    ghost use Rattle.lapdm_frame.specs.Content.{all_frame_kinds, kind_number};

    /// Returns the number of the frame kind, 0 to 8, for programs in other languages.
    pub fn number(self) -> u8
        ensures { result ≡ kind_number self }
    {
        self as u8
    }

    /// Returns the kind with this number, or `None` if the number is above 8.
    pub fn from_number(number: u8) -> Option<Kind>
        ensures { result ≡ slice_get all_frame_kinds number }
    {
        KINDS.get(usize::from(number)).copied()
    }
}

/// The kind of a frame, and every field that a frame of any kind may have. The fields that this kind does not have are 0, false or empty.
/// It serves callers that treat all kinds alike.
#[derive(Clone, Copy, PartialEq, Eq, Debug)]
pub struct FrameFields<'a> {
    pub kind: Kind,
    /// N(S), 0 to 7.
    pub ns: u8,
    /// N(R), 0 to 7.
    pub nr: u8,
    /// The poll or final bit.
    pub pf: bool,
    /// Whether the message continues in the next I frame.
    pub more: bool,
    pub info: &'a [u8],
}

impl<'a> FrameFields<'a> {
    ghost use Rattle.lapdm_frame.specs.Content.{content_of_body, content_of_fields, field_values_of_frame_fields};

    /// Builds a frame body from the kind and the fields. Ignores fields that this kind does not have.
    pub fn body(&self) -> Body<'a>
        ensures { content_of_body result ≡ content_of_fields (field_values_of_frame_fields self.now) }
    {
        let FrameFields {
            kind,
            ns,
            nr,
            pf,
            more,
            info,
        } = *self;
        match kind {
            Kind::I => Body::I {
                ns,
                nr,
                p: pf,
                more,
                info,
            },
            Kind::Rr => Body::Rr { nr, pf },
            Kind::Rnr => Body::Rnr { nr, pf },
            Kind::Rej => Body::Rej { nr, pf },
            Kind::Sabm => Body::Sabm { p: pf, info },
            Kind::Dm => Body::Dm { f: pf },
            Kind::Ui => Body::Ui { p: pf, info },
            Kind::Disc => Body::Disc { p: pf },
            Kind::Ua => Body::Ua { f: pf, info },
        }
    }
}

impl<'a> Body<'a> {
    ghost use Rattle.lapdm_frame.specs.Content.{content_of_body, fields_of_content, field_values_of_frame_fields};

    /// Returns the kind and the fields of this frame body. The fields that this kind does not have are 0, false or empty.
    pub fn fields(&self) -> FrameFields<'a>
        ensures { field_values_of_frame_fields result ≡ fields_of_content (content_of_body self.now) }
    {
        match *self {
            Body::I {
                ns,
                nr,
                p,
                more,
                info,
            } => i_frame_fields(ns, nr, p, more, info),
            Body::Rr { nr, pf } => FrameFields {
                nr,
                ..fields_with_only_pf(Kind::Rr, pf)
            },
            Body::Rnr { nr, pf } => FrameFields {
                nr,
                ..fields_with_only_pf(Kind::Rnr, pf)
            },
            Body::Rej { nr, pf } => FrameFields {
                nr,
                ..fields_with_only_pf(Kind::Rej, pf)
            },
            Body::Sabm { p, info } => FrameFields {
                info,
                ..fields_with_only_pf(Kind::Sabm, p)
            },
            Body::Dm { f } => fields_with_only_pf(Kind::Dm, f),
            Body::Ui { p, info } => FrameFields {
                info,
                ..fields_with_only_pf(Kind::Ui, p)
            },
            Body::Disc { p } => fields_with_only_pf(Kind::Disc, p),
            Body::Ua { f, info } => FrameFields {
                info,
                ..fields_with_only_pf(Kind::Ua, f)
            },
        }
    }
}

fn i_frame_fields(ns: u8, nr: u8, poll: bool, more: bool, info: &[u8]) -> FrameFields<'_>
    ensures { field_values_of_frame_fields result ≡ fields Kind.I ns nr poll more info.now }
{
    FrameFields {
        ns,
        nr,
        more,
        info,
        ..fields_with_only_pf(Kind::I, poll)
    }
}

fn fields_with_only_pf(kind: Kind, pf: bool) -> FrameFields<'static>
    ensures { field_values_of_frame_fields result ≡ fields kind 0 0 pf false [] }
{
    FrameFields {
        kind,
        ns: 0,
        nr: 0,
        pf,
        more: false,
        info: &[],
    }
}

/// The reason why 23 octets are refused as a frame. The reasons are tested in the order of the variants, and the first that applies is
/// returned.
#[derive(Clone, Copy, PartialEq, Eq, Debug, Error)]
pub enum Refusal {
    /// Bit 8 of the address octet (spare) or its bits 7 and 6 (link protocol discriminator) are not 0.
    #[error("bits 8 to 6 of the address octet are not 0")]
    Lpd,
    /// EA is 0: another octet of the address field follows.
    #[error("the EA bit of the address octet is 0, expected 1")]
    Ea,
    /// The control octet belongs to no frame kind.
    #[error("the control octet belongs to no frame type")]
    Control,
    /// EL is 0: another octet of the length field follows.
    #[error("the EL bit of the length octet is 0, expected 1")]
    El,
    /// The length exceeds N201, or is not 0 in a frame of a kind that has no information.
    #[error("the length is above N201, or above 0 in a frame type without information")]
    Length,
    /// An I frame has no information.
    #[error("an I frame has no information, expected at least one octet")]
    Empty,
    /// The M bit is 1 in a kind other than I.
    #[error("the M bit is 1, which only an I frame may have")]
    More,
}
