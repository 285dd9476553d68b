// The write that mends a stripe's only bad block.
ghost use Rattle.std.specs.Prelude.{◌≡◌, ℕ, ◌+◌, ◌<◌, ◌≤◌};
ghost use Rattle.block.specs.Judging.{setup};
ghost use Rattle.shelf.specs.Model.{after_all};
ghost use Rattle.stripe.specs.View.{seen_in, slots_in};
ghost use Rattle.runs.specs.Done.{PatchBelow};
ghost use Rattle.runs.specs.Gather.{patch_by, patch_of, patch_writes, patched_slot};

use block::{Frame, Place, Role, Spot};
use checksum::Checksum;
use mending::mended_block;
use runs::Patch;
use shelf::{ReadableShelf, WritableShelf, store};
use stripe::{CardSet, Decision, Stripe, takes};

// The patch of stripe s, by what its bad blocks decide: there is one if a block is bad and no other.
pub fn patch_by<C: Checksum>(
    decision: Decision,
    stripe: &Stripe,
    frame: Frame,
    s: u32,
) -> Option<Patch>
    requires placed { (j : ℕ) → decision ≡ Decision.Only (Role.Data j) → j < frame.width }
    ensures below { PatchBelow (frame.width + 1) result }
    ensures is { result ≡ patch_by (setup frame C.MARK C.meaning) s (seen_in stripe.now) decision }
{
    match decision {
        Decision::Only(role) => {
            let spot = Spot {
                frame,
                stripe: s,
                role,
            };
            Some(Patch {
                slot: spot.slot(),
                bytes: mended_block::<C>(stripe, spot),
            })
        }
        Decision::Clean | Decision::Lost => None,
    }
}

// The patch of stripe s, if one of its blocks is bad and no other.
pub fn patch_of<C: Checksum>(stripe: &Stripe, frame: Frame, s: u32) -> Option<Patch>
    ensures below { PatchBelow (frame.width + 1) result }
    ensures is { result ≡ patch_of (setup frame C.MARK C.meaning) s (seen_in stripe.now) }
{
    patch_by::<C>(stripe.decide(frame, s), stripe, frame, s)
}

// Hands a patch of stripe s down, unless its place takes no writes; answers the slot to which it was handed.
pub fn apply_patch<W: WritableShelf>(
    cards: &mut CardSet<W>,
    s: u32,
    patch: Option<Patch>,
) -> Option<u32>
    requires within { s < W.blocks cards.old.shelf }
    requires below { PatchBelow (W.cards cards.old.shelf) patch }
    ensures slot { result ≡ patched_slot (slots_in cards.old.states) s patch }
    ensures wrote { W.conduct cards.new.shelf ≡ after_all (W.conduct cards.old.shelf) (patch_writes (slots_in cards.old.states) s patch) }
    ensures frame { cards.new.frame ≡ cards.old.frame }
    ensures states { cards.new.states ≡ cards.old.states }
{
    let p = patch?;
    if !takes(cards.states[p.slot as usize], s) {
        return None;
    }
    let place = Place {
        slot: p.slot,
        block: s,
    };
    store(&mut cards.shelf, place, &p.bytes);
    Some(p.slot)
}
