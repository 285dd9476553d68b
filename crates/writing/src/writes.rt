// A write: its refusals, and what it hands down.
ghost use Rattle.std.specs.Prelude.{◌≡◌, ℕ, ◌<◌};
ghost use Rattle.block.specs.Judging.{setup};
ghost use Rattle.block.specs.Places.{slot_of};
ghost use Rattle.shelf.specs.Model.{after_all, write_of};
ghost use Rattle.stripe.specs.View.{slots_in};
ghost use Rattle.runs.specs.Done.{WriteDone};
ghost use Rattle.runs.specs.Writes.{sent, write_at, write_call};
ghost use Rattle.writing.specs.Prepare.{pair_sent, answered_by, sent_by};

use crate::preparing::prepare;
use crate::shapes::{Pair, Prepared};
use block::{DataSpot, Record, Refusal, Spot};
use checksum::Checksum;
use patches::apply_patch;
use runs::{Patch, Way, WriteAnswer};
use shelf::WritableShelf;
use stripe::{CardSet, Finding};

// Hands a block down to its place, unless its slot's state hides that.
fn send<W: WritableShelf>(cards: &mut CardSet<W>, spot: Spot, bytes: [u8; 128])
    requires same { spot.frame ≡ cards.old.frame }
    requires within { spot.stripe < W.blocks cards.old.shelf }
    ensures wrote { W.conduct cards.new.shelf ≡ after_all (W.conduct cards.old.shelf) (sent (slots_in cards.old.states) (write_of (slot_of spot.frame.width spot.stripe spot.role) spot.stripe bytes)) }
    ensures frame { cards.new.frame ≡ cards.old.frame }
    ensures states { cards.new.states ≡ cards.old.states }
{
    let patch = Patch {
        slot: spot.slot(),
        bytes,
    };
    apply_patch(cards, spot.stripe, Some(patch));
}

// Hands the two blocks of a write down, the data block first.
fn send_pair<W: WritableShelf>(cards: &mut CardSet<W>, at: DataSpot, pair: Pair)
    requires same { at.frame ≡ cards.old.frame }
    requires within { at.stripe < W.blocks cards.old.shelf }
    ensures wrote { W.conduct cards.new.shelf ≡ after_all (W.conduct cards.old.shelf) (pair_sent at.frame.width (slots_in cards.old.states) at.stripe at.index pair) }
    ensures frame { cards.new.frame ≡ cards.old.frame }
    ensures states { cards.new.states ≡ cards.old.states }
{
    send(cards, at.data(), pair.block);
    send(cards, at.parity(), pair.parity);
}

// Hands down what was made ready, and answers.
fn settle<W: WritableShelf>(
    cards: &mut CardSet<W>,
    at: DataSpot,
    ready: Prepared,
) -> Result<WriteAnswer, Refusal>
    requires same { at.frame ≡ cards.old.frame }
    requires within { at.stripe < W.blocks cards.old.shelf }
    ensures answer { result ≡ answered_by ready.looks ready.pair }
    ensures wrote { W.conduct cards.new.shelf ≡ after_all (W.conduct cards.old.shelf) (sent_by at.frame.width (slots_in cards.old.states) at.stripe at.index ready.pair) }
    ensures frame { cards.new.frame ≡ cards.old.frame }
    ensures states { cards.new.states ≡ cards.old.states }
{
    let pair = ready.pair?;
    send_pair(cards, at, pair);
    Ok(WriteAnswer { looks: ready.looks })
}

// The write of a data block.
fn write_at<W: WritableShelf, C: Checksum>(
    cards: &mut CardSet<W>,
    at: DataSpot,
    kept: &Record,
    way: Way,
    findings: &mut [Finding; 8],
) -> Result<WriteAnswer, Refusal>
    requires same { at.frame ≡ cards.old.frame }
    requires within { at.stripe < W.blocks cards.old.shelf }
    ensures did { WriteDone (write_at (setup cards.old.frame C.MARK C.meaning) (W.holds cards.old.shelf) (slots_in cards.old.states) at.stripe at.index kept.now.payload kept.now.owner way) (W.conduct cards.old.shelf) (W.conduct cards.new.shelf) result findings.new }
    ensures frame { cards.new.frame ≡ cards.old.frame }
    ensures states { cards.new.states ≡ cards.old.states }
{
    let ready = prepare::<W, C>(&cards.view(), at, kept, way, findings);
    settle(cards, at, ready)
}

// The write of a payload of 80 bytes for an owner to an address, either way; fills the findings once it looks at the stripe.
// A wrong length, an address that the array has not and owner 0 are refused.
#[tactic(auto, unfolding(runs::specs::Writes::write_call))]
pub fn write_call<W: WritableShelf, C: Checksum>(
    cards: &mut CardSet<W>,
    address: u32,
    owner: u32,
    payload: &[u8],
    way: Way,
    findings: &mut [Finding; 8],
) -> Result<WriteAnswer, Refusal>
    ensures did { WriteDone (write_call (setup cards.old.frame C.MARK C.meaning) (W.holds cards.old.shelf) (slots_in cards.old.states) address payload.now owner way findings.old) (W.conduct cards.old.shelf) (W.conduct cards.new.shelf) result findings.new }
    ensures frame { cards.new.frame ≡ cards.old.frame }
    ensures states { cards.new.states ≡ cards.old.states }
{
    let payload = *payload.as_array::<80>().ok_or(Refusal::Length)?;
    let at = cards.frame.data_spot(address)?;
    if owner == 0 {
        return Err(Refusal::NoOwner);
    }
    let kept = Record { payload, owner };
    write_at::<W, C>(cards, at, &kept, way, findings)
}
