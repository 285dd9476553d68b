// Formatting a shelf, place by place.
ghost use Rattle.std.specs.Prelude.{◌≡◌, ℕ, ◌+◌, ◌<◌, ◌≤◌, [], ◌∷◌};
ghost use Rattle.block.specs.Judging.{setup};
ghost use Rattle.shelf.specs.Model.{after_all};
ghost use Rattle.stripe.specs.Survey.{setup_on};
ghost use Rattle.runs.specs.Formats.{fresh_write, card_writes, format_writes};
ghost use Rattle.runs.specs.Law.{FormatLaw};

use block::{Place, Record};
use checksum::Checksum;
use shelf::{ReadableShelf, WritableShelf, store};
use stripe::CardSet;

// Writes one place with zero payload, owner 0 and versions 0.
fn write_place<W: WritableShelf, C: Checksum>(cards: &mut CardSet<W>, place: Place)
    requires slot_within { place.slot ≤ cards.old.frame.width }
    requires block_within { place.block < cards.old.frame.blocks }
    ensures wrote { W.conduct cards.new.shelf ≡ after_all (W.conduct cards.old.shelf) (fresh_write (setup cards.old.frame C.MARK C.meaning) place.slot place.block ∷ []) }
    ensures frame { cards.new.frame ≡ cards.old.frame }
    ensures states { cards.new.states ≡ cards.old.states }
{
    let blank = Record {
        payload: [0; 80],
        owner: 0,
    };
    let spot = cards.frame.spot_at(place.block, place.slot);
    let bytes = spot.make_block::<C>(&blank, &[0; 7]);
    store(&mut cards.shelf, place, &bytes);
}

// Writes every place of a card, in block order.
fn write_card<W: WritableShelf, C: Checksum>(cards: &mut CardSet<W>, slot: u32)
    requires { slot ≤ cards.old.frame.width }
    ensures wrote { W.conduct cards.new.shelf ≡ after_all (W.conduct cards.old.shelf) (card_writes (setup cards.old.frame C.MARK C.meaning) slot cards.old.frame.blocks) }
    ensures frame { cards.new.frame ≡ cards.old.frame }
    ensures states { cards.new.states ≡ cards.old.states }
{
    for block in 0..cards.frame.blocks {
        write_place::<W, C>(cards, Place { slot, block });
    }
}

// Writes every place, in slot and block order.
fn write_cards<W: WritableShelf, C: Checksum>(cards: &mut CardSet<W>)
    ensures wrote { W.conduct cards.new.shelf ≡ after_all (W.conduct cards.old.shelf) (format_writes (setup cards.old.frame C.MARK C.meaning)) }
    ensures frame { cards.new.frame ≡ cards.old.frame }
    ensures states { cards.new.states ≡ cards.old.states }
{
    for slot in 0..cards.frame.width + 1 {
        write_card::<W, C>(cards, slot);
    }
}

// Formats the cards of an array. Whatever run of calls and damage follows, the law over runs holds of it.
pub fn format_cards<W: WritableShelf, C: Checksum>(cards: &mut CardSet<W>)
    ensures wrote { W.conduct cards.new.shelf ≡ after_all (W.conduct cards.old.shelf) (format_writes (setup_on (W.cards cards.old.shelf) (W.blocks cards.old.shelf) cards.old.frame.tag C.MARK C.meaning)) }
    ensures frame { cards.new.frame ≡ cards.old.frame }
    ensures states { cards.new.states ≡ cards.old.states }
    ensures law { FormatLaw (setup_on (W.cards cards.old.shelf) (W.blocks cards.old.shelf) cards.old.frame.tag C.MARK C.meaning) (W.conduct cards.new.shelf) }
{
    write_cards::<W, C>(cards);
}
