//! The tables of the standard, computed: which burst of which channel a frame of the multiframes carries.
ghost use Rattle.std.specs.Prelude.{◌≡◌, ◌<◌, if◌then◌else◌, false, Some};
ghost use Rattle.tdma.specs.Channels.{is_traffic, position_of};
ghost use Rattle.tdma.specs.Uplink.{random_access, uplink_after};
ghost use Rattle.tdma.specs.declared.channels.Combination.TheVariants as C;
ghost use Rattle.tdma.specs.declared.channels.Direction.TheVariants as D;

use crate::channels::{Channel, Combination, Direction};

/// The channel of a frame, and which burst of its block the frame carries.
#[derive(Clone, Copy, PartialEq, Eq, Debug)]
pub struct Position {
    pub channel: Channel,
    /// The subchannel of SDCCH and SACCH; of CCCH the number of the block in the multiframe, 0 to 8; otherwise 0.
    pub subchannel: u8,
    /// Which burst of the block, 0 to 3; 0 for FCCH, SCH and RACH, whose bursts stand alone.
    pub burst: u8,
}

/// Returns what frame `frame` of two 51-multiframes carries in this direction. Some rows of the tables repeat only after two.
pub(crate) fn position_in_multiframes(
    combination: Combination,
    direction: Direction,
    frame: u8,
) -> Option<Position>
    requires within { frame < 102 }
    requires no_traffic { is_traffic combination ≡ false }
    ensures { result ≡ position_of combination direction 0 frame }
{
    match direction {
        Direction::Downlink => downlink_position(combination, frame),
        Direction::Uplink => uplink_position(combination, frame),
    }
}

/// Returns what a frame carries in the uplink: a dedicated channel has its block fifteen frames after that of the downlink, and RACH has
/// what is left beside CCCH. In a cycle of 102 frames, fifteen frames before is 87 frames after.
#[tactic(auto, using(crate::proofs::Tables::iv_uplink, crate::proofs::Tables::v_uplink, crate::proofs::Tables::vii_uplink))]
fn uplink_position(combination: Combination, frame: u8) -> Option<Position>
    requires within { frame < 102 }
    requires no_traffic { is_traffic combination ≡ false }
    ensures { result ≡ position_of combination D.Uplink 0 frame }
{
    let downlink = downlink_position(combination, (frame + 87) % 102);
    match combination {
        Combination::Sdcch8 => uplink_after(false, downlink),
        _ => uplink_after(true, downlink),
    }
}

fn uplink_after(has_rach: bool, downlink: Option<Position>) -> Option<Position>
    ensures { result ≡ uplink_after has_rach downlink }
{
    match downlink {
        Some(position) => match position.channel {
            Channel::Sdcch | Channel::Sacch => downlink,
            _ => random_access(has_rach),
        },
        None => random_access(has_rach),
    }
}

fn random_access(has_rach: bool) -> Option<Position>
    ensures { result ≡ random_access has_rach }
{
    if has_rach {
        burst_of(Channel::Rach, 0, 0)
    } else {
        None
    }
}

fn downlink_position(combination: Combination, frame: u8) -> Option<Position>
    requires within { frame < 102 }
    requires no_traffic { is_traffic combination ≡ false }
    ensures { result ≡ position_of combination D.Downlink 0 frame }
{
    match combination {
        Combination::Sdcch8 => sdcch8_position(frame),
        Combination::BcchCcchSdcch4 => common_position(true, frame),
        _ => common_position(false, frame),
    }
}

/// Returns what a frame of SDCCH/8 carries in the downlink: eight blocks of SDCCH, four of SACCH, three idle frames.
fn sdcch8_position(frame: u8) -> Option<Position>
    requires { frame < 102 }
    ensures { result ≡ position_of C.Sdcch8 D.Downlink 0 frame }
{
    let t3 = frame % 51;
    let block = t3 / 4;
    if block < 8 {
        return burst_of(Channel::Sdcch, block, t3 % 4);
    }
    if block < 12 {
        return burst_of(Channel::Sacch, block - 8 + 4 * (frame / 51), t3 % 4);
    }
    None
}

/// Returns what a frame of the time slot with BCCH carries in the downlink: in each ten frames a frequency correction burst, a
/// synchronisation burst and two blocks, and at the end an idle frame.
fn common_position(has_sdcch: bool, frame: u8) -> Option<Position>
    requires { frame < 102 }
    ensures { result ≡ position_of (if has_sdcch then C.BcchCcchSdcch4 else C.BcchCcch) D.Downlink 0 frame }
{
    let t3 = frame % 51;
    if t3 == 50 {
        return None;
    }
    if t3 % 10 == 0 {
        return burst_of(Channel::Fcch, 0, 0);
    }
    if t3 % 10 == 1 {
        return burst_of(Channel::Sch, 0, 0);
    }
    let block = 2 * (t3 / 10) + (t3 % 10 - 2) / 4;
    let burst = (t3 % 10 - 2) % 4;
    if block == 0 {
        return burst_of(Channel::Bcch, 0, burst);
    }
    if block < 4 {
        return burst_of(Channel::Ccch, block - 1, burst);
    }
    if !has_sdcch {
        return burst_of(Channel::Ccch, block - 1, burst);
    }
    if block < 8 {
        return burst_of(Channel::Sdcch, block - 4, burst);
    }
    burst_of(Channel::Sacch, block - 8 + 2 * (frame / 51), burst)
}

fn burst_of(channel: Channel, subchannel: u8, burst: u8) -> Option<Position>
    ensures { result ≡ Some (record { channel = channel; subchannel = subchannel; burst = burst }) }
{
    Some(Position {
        channel,
        subchannel,
        burst,
    })
}

/// Returns what a frame of the 104 frames of a full rate traffic channel carries of its SACCH, whose four bursts come 26
/// frames apart, and in each time slot 13 frames later than in the one before; in time slot 0 the first is frame 12, 92 frames before
/// the end.
pub(crate) fn full_rate_position(timeslot: u8, frame: u8) -> Option<Position>
    requires timeslot { timeslot < 8 }
    requires within { frame < 104 }
    ensures { result ≡ position_of C.TchF D.Downlink timeslot frame }
{
    let since = (frame + 92 - 13 * timeslot) % 104;
    if since % 26 != 0 {
        return None;
    }
    burst_of(Channel::Sacch, 0, since / 26)
}

/// Returns what a frame of the 104 frames of two half rate traffic channels carries of their SACCH: that of the first is where that of full
/// rate is in the even one of two time slots, that of the second where it is in the odd one.
pub(crate) fn half_rate_position(timeslot: u8, frame: u8) -> Option<Position>
    requires timeslot { timeslot < 8 }
    requires within { frame < 104 }
    ensures { result ≡ position_of C.TchH D.Downlink timeslot frame }
{
    let since = (frame + 92 - 26 * (timeslot / 2)) % 104;
    if since % 26 == 0 {
        return burst_of(Channel::Sacch, 0, since / 26);
    }
    if since % 26 == 13 {
        return burst_of(Channel::Sacch, 1, since / 26);
    }
    None
}
