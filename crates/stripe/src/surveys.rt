// The masks of all stripes of a shelf.
ghost use Rattle.std.specs.Prelude.{◌≡◌, ℕ, ◌+◌, ◌<◌, length};
ghost use Rattle.block.specs.Judging.{setup};
ghost use Rattle.stripe.specs.Survey.{setup_on, mask_at, stripe_masks, survey_answer, survey_masks};
ghost use Rattle.stripe.specs.View.{slots_in, all_in};

use crate::cards::CardView;
use crate::looks::{all_slots_in, frame_of};
use block::{Frame, Refusal};
use checksum::Checksum;
use shelf::ReadableShelf;

// The mask of stripe s with all slots in.
fn mask_at<R: ReadableShelf, C: Checksum>(cards: &CardView<R>, s: u32) -> u8
    requires within { s < R.blocks cards.now.shelf.now }
    requires all_in { slots_in cards.now.states.now ≡ all_in }
    ensures { result ≡ mask_at (setup cards.now.frame C.MARK C.meaning) (R.holds cards.now.shelf.now) s }
{
    cards.look::<C>(s).mask(cards.frame, s)
}

// Writes the mask of each stripe.
fn write_masks<R: ReadableShelf, C: Checksum>(shelf: &R, frame: Frame, masks: &mut [u8])
    requires cards { frame.width + 1 ≡ R.cards shelf.now }
    requires blocks { frame.blocks ≡ R.blocks shelf.now }
    requires long { length masks.old ≡ frame.blocks }
    ensures { masks.new ≡ stripe_masks (setup_on (R.cards shelf.now) (R.blocks shelf.now) frame.tag C.MARK C.meaning) (R.holds shelf.now) }
{
    let states = all_slots_in();
    let cards = CardView {
        shelf,
        frame,
        states: &states,
    };
    for (s, mask) in masks.iter_mut().enumerate() {
        *mask = mask_at::<R, C>(&cards, s as u32);
    }
}

// Writes the mask of each stripe of an array on a shelf, with all slots in: one byte for each stripe.
// Bit c is set if the block in slot c is blind, broken, foreign or behind.
pub fn survey<R: ReadableShelf, C: Checksum>(
    shelf: &R,
    tag: u32,
    masks: &mut [u8],
) -> Result<(), Refusal>
    ensures answer { result ≡ survey_answer tt (setup_on (R.cards shelf.now) (R.blocks shelf.now) tag C.MARK C.meaning) (length masks.old) }
    ensures written { masks.new ≡ survey_masks (setup_on (R.cards shelf.now) (R.blocks shelf.now) tag C.MARK C.meaning) (R.holds shelf.now) masks.old }
{
    if masks.len() != shelf.block_count() as usize {
        return Err(Refusal::Length);
    }
    if tag == 0 {
        return Err(Refusal::Shape);
    }
    let frame = frame_of(shelf, tag);
    write_masks::<R, C>(shelf, frame, masks);
    Ok(())
}
