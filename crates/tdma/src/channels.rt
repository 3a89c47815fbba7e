//! The logical channels of a time slot.

/// The combination of channels in a time slot (GSM 05.02 section 6.4.1).
#[derive(Clone, Copy, PartialEq, Eq, Debug)]
pub enum Combination {
    /// FCCH, SCH, BCCH and CCCH, with RACH in the uplink (combination iv).
    BcchCcch,
    /// FCCH, SCH, BCCH, CCCH, SDCCH/4 and its SACCH, with RACH in the uplink (combination v).
    BcchCcchSdcch4,
    /// SDCCH/8 and its SACCH (combination vii).
    Sdcch8,
    /// The SACCH of a full rate traffic channel (of combination i); the other frames carry traffic or are idle.
    TchF,
    /// The SACCH of the two half rate traffic channels of a time slot (of combination ii), their numbers 0 and 1 as subchannels.
    TchH,
}

/// The direction of a burst.
#[derive(Clone, Copy, PartialEq, Eq, Debug)]
pub enum Direction {
    /// From the base station to the mobiles.
    Downlink,
    /// From a mobile to the base station.
    Uplink,
}

/// A logical channel.
#[derive(Clone, Copy, PartialEq, Eq, Debug)]
pub enum Channel {
    Sdcch,
    Sacch,
    Bcch,
    Ccch,
    Fcch,
    Sch,
    Rach,
}
