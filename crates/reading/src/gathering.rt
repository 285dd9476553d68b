// How a read obtains a block from a stripe.
ghost use Rattle.std.specs.Prelude.{◌≡◌, ◌+◌, ◌<◌};
ghost use Rattle.block.specs.Judging.{setup};
ghost use Rattle.stripe.specs.View.{seen_in, slots_in, view_of};
ghost use Rattle.runs.specs.Done.{PatchBelow};
ghost use Rattle.runs.specs.Gather.{as_found, as_rebuilt, gathered_all, gathered};
ghost use Rattle.reading.specs.Sights.{sighted};

use crate::shapes::Sighted;
use block::{DataSpot, Verdict};
use checksum::Checksum;
use patches::{patch_of, quick};
use runs::{Gathered, Obtained, Patch};
use shelf::ReadableShelf;
use stripe::{CardView, Stripe};

// A block that is given as found.
fn as_found(block: &Verdict) -> Obtained
    ensures { result ≡ as_found block.now }
{
    block.map_or(Obtained::Lost, Obtained::Found)
}

// A block of the mask: the patch's, if there is one.
fn as_rebuilt(patch: &Option<Patch>) -> Obtained
    ensures { result ≡ as_rebuilt patch.now }
{
    patch.map_or(Obtained::Lost, |p| Obtained::Rebuilt(p.bytes))
}

// A data block, once all places of its stripe were looked at.
#[tactic(auto, unfolding(runs::specs::Gather::gathered_all))]
fn gather_all<C: Checksum>(stripe: &Stripe, at: DataSpot) -> Gathered
    ensures below { PatchBelow (at.frame.width + 1) result.patch }
    ensures is { result ≡ gathered_all (setup at.frame C.MARK C.meaning) at.stripe (seen_in stripe.now) at.index }
{
    let patch = patch_of::<C>(stripe, at.frame, at.stripe);
    let obtained = if stripe.is_bad(at.data()) {
        as_rebuilt(&patch)
    } else {
        as_found(stripe.data_at(at.index))
    };
    Gathered {
        obtained,
        looks: at.frame.width + 1,
        patch,
    }
}

// Looks at a data block and its parity, and at all places of the stripe if these do not suffice.
#[tactic(auto, unfolding(crate::specs::Sights::sighted))]
pub(crate) fn sight<R: ReadableShelf, C: Checksum>(cards: &CardView<R>, at: DataSpot) -> Sighted
    requires same { at.frame ≡ cards.now.frame }
    requires within { at.stripe < R.blocks cards.now.shelf.now }
    ensures below { PatchBelow (cards.now.frame.width + 1) result.gathered.patch }
    ensures is { result ≡ sighted (setup cards.now.frame C.MARK C.meaning) at.stripe (view_of (setup cards.now.frame C.MARK C.meaning) (R.holds cards.now.shelf.now) (slots_in cards.now.states.now) at.stripe) at.index }
{
    let block = cards.judge::<C>(at.data());
    let parity = cards.judge::<C>(at.parity());
    if quick(&block, &parity, at.index) {
        let gathered = Gathered {
            obtained: as_found(&block),
            looks: 2,
            patch: None,
        };
        Sighted {
            gathered,
            stripe: None,
        }
    } else {
        let stripe = cards.look::<C>(at.stripe);
        Sighted {
            gathered: gather_all::<C>(&stripe, at),
            stripe: Some(stripe),
        }
    }
}

// What a read makes of a data block.
#[tactic(auto, using(crate::proofs::Settles::sighted_gathered))]
pub fn gather<R: ReadableShelf, C: Checksum>(cards: &CardView<R>, at: DataSpot) -> Gathered
    requires same { at.frame ≡ cards.now.frame }
    requires within { at.stripe < R.blocks cards.now.shelf.now }
    ensures below { PatchBelow (cards.now.frame.width + 1) result.patch }
    ensures is { result ≡ gathered (setup cards.now.frame C.MARK C.meaning) at.stripe (view_of (setup cards.now.frame C.MARK C.meaning) (R.holds cards.now.shelf.now) (slots_in cards.now.states.now) at.stripe) at.index }
{
    sight::<R, C>(cards, at).gathered
}
