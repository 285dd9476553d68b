// An array over the counting layer, with the plain sum.
ghost use Rattle.std.specs.Prelude.{◌≡◌, ◌≤◌, IfOk, MatchResult};
ghost use Rattle.shelf.specs.Model.{after_all};
ghost use Rattle.stripe.specs.Survey.{setup_on};
ghost use Rattle.stripe.specs.View.{slots_in, all_in};
ghost use Rattle.runs.specs.Formats.{format_writes};
ghost use Rattle.runs.specs.Law.{FormatLaw};
ghost use Rattle.example.specs.Plain.{plain};

use crate::counted::Counted;
use crate::plain::PlainSum;
use array::Array;
use block::{HandedBack, Refusal};
use shelf::{ReadableShelf, WritableShelf};

// A new array over any shelf, with its writes counted and the plain sum in its blocks. The contract is that of `Array::format`, at
// this shelf and this checksum; the law over runs is part of it. It needs no proof file.
pub fn format_counted<W: WritableShelf>(
    shelf: W,
    tag: u32,
) -> Result<Array<Counted<W>, PlainSum>, HandedBack<Counted<W>>>
    ensures answer { MatchResult result (λ a. (1 ≤ tag) × (W.conduct a.cards.shelf.shelf ≡ after_all (W.conduct shelf) (format_writes (setup_on (W.cards shelf) (W.blocks shelf) tag 3 plain))) × (W.cards a.cards.shelf.shelf ≡ W.cards shelf) × (W.blocks a.cards.shelf.shelf ≡ W.blocks shelf) × (a.cards.frame.tag ≡ tag) × (slots_in a.cards.states ≡ all_in) × (a.cursor ≡ 0) × (a.tally ≡ 0)) (λ e. (tag ≡ 0) × (e.refusal ≡ Refusal.Shape) × (e.value.shelf ≡ shelf) × (e.value.count ≡ 0)) }
    ensures law { IfOk result (λ a. FormatLaw (setup_on (W.cards shelf) (W.blocks shelf) tag 3 plain) (W.conduct a.cards.shelf.shelf)) }
{
    Array::format(Counted::over(shelf), tag)
}
