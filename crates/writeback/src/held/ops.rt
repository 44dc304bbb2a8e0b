ghost use Rattle.std.specs.Prelude.{◌≡◌, [], drop};
ghost use Rattle.std.specs.Option.{option_to_list};
ghost use Rattle.writeback.specs.Holds.{held_list};
ghost use Rattle.writeback.specs.Slots.{latest, oldest, renewed, newest_four, beyond_four};

use crate::held::Held;
use crate::slot::Slot;
use arrayvec::ArrayVec;
use store::store::Block;

impl Held {
    pub fn new() -> Held
        ensures { held_list result ≡ [] }
    {
        Held {
            slots: ArrayVec::new(),
        }
    }

    // The block that is held for `i`, if there is one.
    pub fn find(&self, i: usize) -> Option<Block>
        ensures { result ≡ latest i (held_list self.now) }
    {
        let slot = self.slots.iter().find(|slot| slot.at == i)?;
        Some(slot.block)
    }

    // Takes the longest held out.
    pub fn pop(&mut self) -> Option<Slot>
        ensures out { result ≡ oldest (held_list self.old) }
        ensures rest { held_list self.new ≡ drop 1 (held_list self.old) }
    {
        self.slots.pop_at(0)
    }

    // Holds a block as the newest, in the place of an older one for its place; the longest held comes out
    // where there would be five.
    pub fn push(&mut self, slot: Slot) -> Option<Slot>
        ensures out { option_to_list result ≡ beyond_four (renewed (held_list self.old) slot) }
        ensures rest { held_list self.new ≡ newest_four (renewed (held_list self.old) slot) }
    {
        self.slots.retain(|held| held.at != slot.at);
        let out = if self.slots.is_full() {
            self.slots.pop_at(0)
        } else {
            None
        };
        self.slots.push(slot);
        out
    }
}
