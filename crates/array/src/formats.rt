// Formatting an array.
ghost use Rattle.std.specs.Prelude.{◌≡◌, ◌≤◌, IfOk, MatchResult};
ghost use Rattle.shelf.specs.Model.{after_all};
ghost use Rattle.stripe.specs.Survey.{setup_on};
ghost use Rattle.stripe.specs.View.{slots_in, all_in};
ghost use Rattle.runs.specs.Formats.{format_writes};
ghost use Rattle.runs.specs.Law.{FormatLaw};

use crate::array::Array;
use block::{HandedBack, Refusal};
use checksum::Checksum;
use formatting::format_cards;
use shelf::{ReadableShelf, WritableShelf};

impl<W: WritableShelf, C: Checksum> Array<W, C> {
    // A new array: every place of the shelf is written in slot and block order with zero payload, owner 0 and versions 0.
    // All slots are in, cursor and tally are 0. A tag of 0 is refused, and then no card is touched.
    // Whatever the cards made of the writes, the law over runs holds of every run from here on.
    pub fn format(shelf: W, tag: u32) -> Result<Array<W, C>, HandedBack<W>>
        ensures answer { MatchResult result (λ a. (1 ≤ tag) × (W.conduct a.cards.shelf ≡ after_all (W.conduct shelf) (format_writes (setup_on (W.cards shelf) (W.blocks shelf) tag C.MARK C.meaning))) × (W.cards a.cards.shelf ≡ W.cards shelf) × (W.blocks a.cards.shelf ≡ W.blocks shelf) × (a.cards.frame.tag ≡ tag) × (slots_in a.cards.states ≡ all_in) × (a.cursor ≡ 0) × (a.tally ≡ 0)) (λ e. (tag ≡ 0) × (e.refusal ≡ Refusal.Shape) × (e.value ≡ shelf)) }
        ensures law { IfOk result (λ a. FormatLaw (setup_on (W.cards shelf) (W.blocks shelf) tag C.MARK C.meaning) (W.conduct a.cards.shelf)) }
    {
        let mut array = Array::open(shelf, tag)?;
        format_cards::<W, C>(&mut array.cards);
        Ok(array)
    }
}
