//! The parts of a step of a receiver: a block ends, and a burst is put into its block.
ghost use Rattle.std.specs.Prelude.{◌≡◌, ◌<◌, ◌≤◌, List, ℤ, Option, None};
ghost use Rattle.um_slot.specs.Slots.{AreDone, closed, end_collecting, put_burst};

use crate::slots::{FinishedBlock, Slot};
use burst_map::BURST_BITS;
use tdma::{HYPERFRAME, Place};

impl Slot {
    /// Finishes the block that is being collected if the frame is of another.
    pub(crate) fn end_collecting(
        &mut self,
        collecting: &Option<Place>,
        place: &Option<Place>,
    ) -> Option<FinishedBlock>
        ensures heard { self.new.heard ≡ self.old.heard }
        ensures slot { (done : List (List ℤ)) →
            self.new ≡ (end_collecting collecting.now place.now (record { slot = self.old; finished = None; done = done })).slot }
        ensures finished { (done : List (List ℤ)) →
            result ≡ (end_collecting collecting.now place.now (record { slot = self.old; finished = None; done = done })).finished }
        ensures done { (done : List (List ℤ)) → AreDone result self.new done
            (end_collecting collecting.now place.now (record { slot = self.old; finished = None; done = done })).done }
    {
        let Some(collected) = collecting else {
            return None;
        };
        let Some(place) = place else {
            return None;
        };
        if place.first == collected.first {
            return None;
        }
        Some(self.finish(collected))
    }

    pub(crate) fn finish(&mut self, place: &Place) -> FinishedBlock
        ensures slot { self.new ≡ closed self.old }
        ensures finished { result ≡ record { place = place.now; heard = self.old.heard } }
    {
        self.first = HYPERFRAME;
        FinishedBlock {
            place: *place,
            heard: self.heard,
        }
    }

    pub(crate) fn put_burst(&mut self, place: &Place, burst: &[i8; BURST_BITS], came: u8)
        requires burst { place.now.position.burst < 4 }
        requires heard { self.old.heard ≤ 4 }
        requires came { came ≤ 1 }
        ensures { self.new ≡ put_burst place.now came burst.now self.old }
    {
        if self.first != place.first {
            self.first = place.first;
            self.heard = 0;
            self.bursts = [[0; BURST_BITS]; 4];
        }
        self.heard = (self.heard + came).min(4);
        self.bursts[usize::from(place.position.burst)] = *burst;
    }
}
