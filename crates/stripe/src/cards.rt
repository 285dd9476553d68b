// The cards of an array.
ghost use Rattle.std.specs.Prelude.{◌≡◌, ◌+◌};

use crate::shapes::SlotState;
use block::Frame;
use shelf::{ReadableShelf, WritableShelf};

// A shelf, what stays fixed of the array on it, and the state of each slot.
pub struct CardSet<W: WritableShelf> {
    pub shelf: W,
    pub frame: Frame,
    pub states: [SlotState; 8],
    ghost cards: { W.cards shelf ≡ frame.width + 1 },
    ghost blocks: { W.blocks shelf ≡ frame.blocks },
}

// The same, lent to be read.
#[derive(Drop)]
pub struct CardView<'a, R: ReadableShelf> {
    pub shelf: &'a R,
    pub frame: Frame,
    pub states: &'a [SlotState; 8],
    ghost cards: { R.cards shelf.now ≡ frame.width + 1 },
}
