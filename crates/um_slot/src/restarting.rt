//! A receiver that begins again, and one whose recording has ended.
ghost use Rattle.std.specs.Prelude.{◌≡◌, ◌≤◌, IsOk, IsSome, List, ℤ, SomeIff};
ghost use Rattle.um_slot.specs.Slots.{EndsWith, restarted, settings_of};

use crate::slots::{FinishedBlock, Refusal, Slot};
use burst_map::BURST_BITS;
use tdma::HYPERFRAME;

impl Slot {
    /// Returns a receiver with the settings of this one that has taken no frame, or `None` if a setting is out of range.
    pub fn restarted(&self) -> Option<Slot>
        ensures { SomeIff result (IsSome (settings_of (restarted self.now))) (restarted self.now) }
    {
        let slot = Slot {
            last: HYPERFRAME,
            first: HYPERFRAME,
            heard: 0,
            bursts: [[0; BURST_BITS]; 4],
            ..*self
        };
        if slot.settings().is_some() {
            Some(slot)
        } else {
            None
        }
    }

    /// Ends the block that is being collected, if there is one, at once: no more frames will come. Its bursts stay in the receiver.
    pub fn end(&mut self) -> Result<Option<FinishedBlock>, Refusal>
        ensures ends { (done : List (List ℤ)) → EndsWith (settings_of self.old) self.old done result self.new }
        ensures valid { IsOk result → (1 ≤ self.old.words) × (self.old.words ≤ 64) × (self.old.erasures ≤ 4) }
    {
        let Some(settings) = self.settings() else {
            return Err(Refusal::Invalid);
        };
        match settings.collecting {
            Some(place) => Ok(Some(self.finish(&place))),
            None => Ok(None),
        }
    }
}
