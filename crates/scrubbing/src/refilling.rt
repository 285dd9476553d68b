// A rebuild of a slot, stripe by stripe.
ghost use Rattle.std.specs.Prelude.{◌≡◌, ℕ, ◌+◌, ◌<◌, ◌≤◌, [], None as NotRefused, Ok};
ghost use Rattle.block.specs.Judging.{setup};
ghost use Rattle.shelf.specs.Model.{after_all};
ghost use Rattle.stripe.specs.View.{slots_in};
ghost use Rattle.runs.specs.Done.{RebuildDone};
ghost use Rattle.runs.specs.Slots.{is_filling, ok_unless, rebuild_writes, refill, refill_next, rebuild_refused, rebuild_end, rebuild_answer};
ghost use Rattle.scrubbing.specs.Counts.{rebuilding, RebuildBelow, any_write, recounted_by, refill_from};

use block::{Place, Refusal};
use checksum::Checksum;
use patches::patch_of;
use runs::{Patch, RebuildCounts};
use shelf::{ReadableShelf, WritableShelf, store};
use stripe::{CardSet, CardView, SlotState};

// Writes the block of a patch of stripe s straight to its place, if it is the slot's; answers whether it was written.
fn write_own<W: WritableShelf>(
    cards: &mut CardSet<W>,
    slot: u32,
    s: u32,
    patch: Option<Patch>,
) -> bool
    requires placed { slot ≤ cards.old.frame.width }
    requires within { s < cards.old.frame.blocks }
    ensures is { result ≡ any_write (refill_from slot s patch) }
    ensures wrote { W.conduct cards.new.shelf ≡ after_all (W.conduct cards.old.shelf) (refill_from slot s patch) }
    ensures frame { cards.new.frame ≡ cards.old.frame }
    ensures states { cards.new.states ≡ cards.old.states }
{
    match patch {
        Some(p) if p.slot == slot => {
            store(&mut cards.shelf, Place { slot, block: s }, &p.bytes);
            true
        }
        _ => false,
    }
}

// The patch of stripe s, and so the writes of a rebuild of each slot at the stripe.
fn stripe_patch<R: ReadableShelf, C: Checksum>(cards: &CardView<'_, R>, s: u32) -> Option<Patch>
    requires { s < R.blocks cards.now.shelf.now }
    ensures { (c : ℕ) → refill_from c s result ≡ rebuild_writes (setup cards.now.frame C.MARK C.meaning) (R.holds cards.now.shelf.now) (slots_in cards.now.states.now) s c }
{
    patch_of::<C>(&cards.look::<C>(s), cards.frame, s)
}

// Judges stripe s and mends the slot's block if it is the only bad one; answers whether it was mended.
fn refill_one<W: WritableShelf, C: Checksum>(cards: &mut CardSet<W>, slot: u32, s: u32) -> bool
    requires placed { slot ≤ cards.old.frame.width }
    requires within { s < cards.old.frame.blocks }
    ensures is { result ≡ any_write (rebuild_writes (setup cards.old.frame C.MARK C.meaning) (W.conduct cards.old.shelf []) (slots_in cards.old.states) s slot) }
    ensures wrote { W.conduct cards.new.shelf ≡ after_all (W.conduct cards.old.shelf) (rebuild_writes (setup cards.old.frame C.MARK C.meaning) (W.conduct cards.old.shelf []) (slots_in cards.old.states) s slot) }
    ensures frame { cards.new.frame ≡ cards.old.frame }
    ensures states { cards.new.states ≡ cards.old.states }
{
    let patch = stripe_patch::<W, C>(&cards.view(), s);
    write_own(cards, slot, s, patch)
}

// Counts one stripe more.
fn recount(counts: &mut RebuildCounts, mended: bool)
    requires few { counts.old.moved < 65536 }
    requires below { RebuildBelow counts.old counts.old.moved }
    ensures is { counts.new ≡ recounted_by counts.old mended }
    ensures moved { counts.new.moved ≡ counts.old.moved + 1 }
    ensures below { RebuildBelow counts.new counts.new.moved }
{
    counts.moved += 1;
    if mended {
        counts.mended += 1;
    } else {
        counts.lost += 1;
    }
}

// Stripe s of the slot, which is being filled at block s.
fn refill_at<W: WritableShelf, C: Checksum>(
    cards: &mut CardSet<W>,
    slot: u32,
    s: u32,
    counts: &mut RebuildCounts,
)
    requires placed { slot ≤ cards.old.frame.width }
    requires within { s < cards.old.frame.blocks }
    requires few { counts.old.moved < 65536 }
    requires below { RebuildBelow counts.old counts.old.moved }
    ensures did { rebuilding (W.conduct cards.new.shelf) (slots_in cards.new.states) counts.new ≡ refill (setup cards.old.frame C.MARK C.meaning) slot s (rebuilding (W.conduct cards.old.shelf) (slots_in cards.old.states) counts.old) }
    ensures moved { counts.new.moved ≡ counts.old.moved + 1 }
    ensures below { RebuildBelow counts.new counts.new.moved }
    ensures frame { cards.new.frame ≡ cards.old.frame }
{
    let mended = refill_one::<W, C>(cards, slot, s);
    cards.states[slot as usize] = SlotState::Filling(s + 1);
    recount(counts, mended);
}

// The slot's next stripe, if one is left.
fn refill_next<W: WritableShelf, C: Checksum>(
    cards: &mut CardSet<W>,
    slot: u32,
    counts: &mut RebuildCounts,
)
    requires placed { slot ≤ cards.old.frame.width }
    requires few { counts.old.moved < 65536 }
    requires below { RebuildBelow counts.old counts.old.moved }
    ensures did { rebuilding (W.conduct cards.new.shelf) (slots_in cards.new.states) counts.new ≡ refill_next (setup cards.old.frame C.MARK C.meaning) slot (rebuilding (W.conduct cards.old.shelf) (slots_in cards.old.states) counts.old) }
    ensures moved { counts.new.moved ≤ counts.old.moved + 1 }
    ensures below { RebuildBelow counts.new counts.new.moved }
    ensures frame { cards.new.frame ≡ cards.old.frame }
{
    if let SlotState::Filling(s) = cards.states[slot as usize]
        && s < cards.frame.blocks
    {
        refill_at::<W, C>(cards, slot, s, counts);
    }
}

// The stripes of a rebuild, one after the other.
fn refill_many<W: WritableShelf, C: Checksum>(
    cards: &mut CardSet<W>,
    slot: u32,
    stripes: u32,
) -> RebuildCounts
    requires few { stripes ≤ 65536 }
    requires placed { slot ≤ cards.old.frame.width }
    requires allowed { rebuild_refused (setup cards.old.frame C.MARK C.meaning) (slots_in cards.old.states) slot stripes ≡ NotRefused }
    ensures answer { Ok result ≡ rebuild_answer (setup cards.old.frame C.MARK C.meaning) (W.conduct cards.old.shelf) (slots_in cards.old.states) slot stripes }
    ensures done { RebuildDone (rebuild_end (setup cards.old.frame C.MARK C.meaning) (W.conduct cards.old.shelf) (slots_in cards.old.states) slot stripes) (W.conduct cards.new.shelf) (slots_in cards.new.states) }
    ensures frame { cards.new.frame ≡ cards.old.frame }
{
    let mut counts = RebuildCounts::default();
    for _ in 0..stripes {
        refill_next::<W, C>(cards, slot, &mut counts);
    }
    counts
}

fn is_filling(state: SlotState) -> bool
    ensures { result ≡ is_filling state }
{
    matches!(state, SlotState::Filling(_))
}

// Refuses a rebuild: a slot or a count out of range first, then a slot that is not being filled.
#[tactic(auto, unfolding(runs::specs::Slots::rebuild_refused))]
fn allow<W: WritableShelf, C: Checksum>(
    cards: &CardSet<W>,
    slot: u32,
    stripes: u32,
) -> Result<(), Refusal>
    ensures is { result ≡ ok_unless (rebuild_refused (setup cards.now.frame C.MARK C.meaning) (slots_in cards.now.states) slot stripes) tt }
    ensures placed { result ≡ Ok tt → slot ≤ cards.now.frame.width }
    ensures few { result ≡ Ok tt → stripes ≤ 65536 }
{
    if slot > cards.frame.width || stripes > 65536 {
        return Err(Refusal::Place);
    }
    if !is_filling(cards.states[slot as usize]) {
        return Err(Refusal::SlotState);
    }
    Ok(())
}

// A rebuild of at most so many stripes of a slot that is being filled; a refused one changes nothing.
pub fn rebuild_call<W: WritableShelf, C: Checksum>(
    cards: &mut CardSet<W>,
    slot: u32,
    stripes: u32,
) -> Result<RebuildCounts, Refusal>
    ensures answer { result ≡ rebuild_answer (setup cards.old.frame C.MARK C.meaning) (W.conduct cards.old.shelf) (slots_in cards.old.states) slot stripes }
    ensures done { RebuildDone (rebuild_end (setup cards.old.frame C.MARK C.meaning) (W.conduct cards.old.shelf) (slots_in cards.old.states) slot stripes) (W.conduct cards.new.shelf) (slots_in cards.new.states) }
    ensures frame { cards.new.frame ≡ cards.old.frame }
{
    allow::<W, C>(cards, slot, stripes)?;
    Ok(refill_many::<W, C>(cards, slot, stripes))
}
