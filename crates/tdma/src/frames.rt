//! Frame numbers, and the three numbers that a frame number is sent as.
ghost use Rattle.std.specs.Prelude.{◌≡◌, ◌<◌, ℕ, SomeIff, MatchOption, Some};
ghost use Rattle.tdma.specs.Frames.{time_of, IsFrameAt};

use crate::HYPERFRAME;

/// A frame number as T1, T2 and T3, with the memory layout of C.
#[repr(C)]
#[derive(Clone, Copy, PartialEq, Eq, Debug)]
pub struct FrameTime {
    /// The number of the superframe, 0 to 2047.
    pub t1: u16,
    /// The place in the 26-multiframe, 0 to 25.
    pub t2: u8,
    /// The place in the 51-multiframe, 0 to 50.
    pub t3: u8,
}

/// Splits a frame number into T1, T2 and T3. Returns `None` if there is no such frame number.
pub fn time_of_frame(frame: u32) -> Option<FrameTime>
    ensures { SomeIff result (frame < HYPERFRAME) (time_of frame) }
{
    if frame >= HYPERFRAME {
        return None;
    }
    Some(FrameTime {
        t1: (frame / 1326) as u16,
        t2: (frame % 26) as u8,
        t3: (frame % 51) as u8,
    })
}

/// Returns the frame number with this T1, T2 and T3, or `None` if one of them is out of range.
pub fn frame_of_time(time: &FrameTime) -> Option<u32>
    ensures found { MatchOption result ((frame : ℕ) → ¬ IsFrameAt time.now frame) (IsFrameAt time.now) }
    ensures only { (frame : ℕ) → IsFrameAt time.now frame → result ≡ Some frame }
{
    let FrameTime { t1, t2, t3 } = *time;
    if t1 > 2047 || t2 > 25 || t3 > 50 {
        return None;
    }
    // T2 and T3 determine the place in the superframe, since 26 and 51 have no common factor.
    let multiframe = (u32::from(t3) + 26 - u32::from(t2)) % 26;
    Some(1326 * u32::from(t1) + 51 * multiframe + u32::from(t3))
}
