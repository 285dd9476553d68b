// Opening and closing an array, and what it tells of itself.
ghost use Rattle.std.specs.Prelude.{◌≡◌, ℕ, ◌<◌, ◌≤◌, MatchResult};
ghost use Rattle.stripe.specs.View.{slots_in, all_in};
ghost use Rattle.array.specs.Opens.{state_answer};

use crate::array::Array;
use block::{HandedBack, Refusal};
use checksum::Checksum;
use shelf::{ReadableShelf, WritableShelf};
use std::marker::PhantomData;
use stripe::{CardSet, SlotState};

impl<W: WritableShelf, C: Checksum> Array<W, C> {
    // An array on a shelf as it stands, with all slots in, cursor and tally 0. No card is touched. A tag of 0 is refused.
    pub fn open(shelf: W, tag: u32) -> Result<Array<W, C>, HandedBack<W>>
        ensures { MatchResult result (λ a. (1 ≤ tag) × (a.cards.shelf ≡ shelf) × (a.cards.frame.tag ≡ tag) × (slots_in a.cards.states ≡ all_in) × (a.cursor ≡ 0) × (a.tally ≡ 0)) (λ e. (tag ≡ 0) × (e.refusal ≡ Refusal.Shape) × (e.value ≡ shelf)) }
    {
        if tag == 0 {
            return Err(HandedBack {
                refusal: Refusal::Shape,
                value: shelf,
            });
        }
        Ok(Array {
            cards: CardSet::new(shelf, tag),
            cursor: 0,
            tally: 0,
            sums: PhantomData,
        })
    }

    // The shelf under the array.
    pub fn close(self) -> W
        ensures { result ≡ self.cards.shelf }
    {
        let Array {
            cards,
            cursor: _,
            tally: _,
            sums: _,
        } = self;
        let CardSet {
            shelf,
            frame: _,
            states: _,
        } = cards;
        shelf
    }

    // The number of reads given rebuilt.
    pub fn tally(&self) -> u32
        ensures { result ≡ self.now.tally }
    {
        self.tally
    }

    // The state of a slot. A slot that the shelf has not is refused.
    pub fn slot_state(&self, slot: u32) -> Result<SlotState, Refusal>
        ensures { result ≡ state_answer (W.cards self.now.cards.shelf) (slots_in self.now.cards.states) slot }
    {
        if slot <= self.cards.frame.width {
            Ok(self.cards.states[slot as usize])
        } else {
            Err(Refusal::Place)
        }
    }
}
