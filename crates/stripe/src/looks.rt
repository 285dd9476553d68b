// Looking at the places of a stripe.
ghost use Rattle.std.specs.Prelude.{◌≡◌, ℕ, ◌+◌, ◌<◌, ◌≤◌};
ghost use Rattle.block.specs.Judging.{setup};
ghost use Rattle.stripe.specs.View.{slots_in, all_in, takes_at, seen_at, view_of, row_of, stripe_of, unseen_stripe};

use crate::cards::{CardSet, CardView};
use crate::shapes::{SlotState, Stripe};
use block::{Cell, DataSpot, Defect, Frame, Place, Role, Spot, Verdict};
use checksum::Checksum;
use shelf::{ReadableShelf, WritableShelf, fetch};

// The frame of an array on a shelf, under a tag.
pub fn frame_of<R: ReadableShelf>(shelf: &R, tag: u32) -> Frame
    requires { 1 ≤ tag }
    ensures width { result.width + 1 ≡ R.cards shelf.now }
    ensures blocks { result.blocks ≡ R.blocks shelf.now }
    ensures tag { result.tag ≡ tag }
{
    let cards = shelf.card_count();
    let blocks = shelf.block_count();
    Frame {
        width: cards - 1,
        blocks,
        tag,
    }
}

// Eight slots that are in.
pub fn all_slots_in() -> [SlotState; 8]
    ensures { slots_in result ≡ all_in }
{
    [SlotState::In; 8]
}

// Whether block s of a slot in such a state is read and written.
pub fn takes(state: SlotState, s: u32) -> bool
    ensures { result ≡ takes_at state s }
{
    match state {
        SlotState::In => true,
        SlotState::Out => false,
        SlotState::Filling(n) => s < n,
    }
}

impl<W: WritableShelf> CardSet<W> {
    // The cards of an array on a shelf, under a tag, with all slots in.
    pub fn new(shelf: W, tag: u32) -> CardSet<W>
        requires { 1 ≤ tag }
        ensures shelf { result.shelf ≡ shelf }
        ensures tag { result.frame.tag ≡ tag }
        ensures slots { slots_in result.states ≡ all_in }
    {
        let frame = frame_of(&shelf, tag);
        CardSet {
            shelf,
            frame,
            states: all_slots_in(),
        }
    }

    // The cards, to be read.
    pub fn view(&self) -> CardView<'_, W>
        ensures shelf { result.shelf.now ≡ self.now.shelf }
        ensures frame { result.frame ≡ self.now.frame }
        ensures states { result.states.now ≡ self.now.states }
    {
        CardView {
            shelf: &self.shelf,
            frame: self.frame,
            states: &self.states,
        }
    }
}

impl<'a, R: ReadableShelf> CardView<'a, R> {
    // What is seen of a place; no read is sent to a place that its slot's state hides.
    fn seen(&self, place: Place) -> Cell
        requires slot_within { place.slot ≤ self.now.frame.width }
        requires block_within { place.block < R.blocks self.now.shelf.now }
        ensures { result ≡ seen_at (R.holds self.now.shelf.now place.slot place.block) (slots_in self.now.states.now place.slot) place.block }
    {
        if takes(self.states[place.slot as usize], place.block) {
            fetch(self.shelf, place)
        } else {
            None
        }
    }

    // Judges a block alone, into a verdict that the caller keeps.
    fn judge_into<C: Checksum>(&self, spot: Spot, out: &mut Verdict)
        requires same { spot.frame ≡ self.now.frame }
        requires within { spot.stripe < R.blocks self.now.shelf.now }
        ensures { out.new ≡ view_of (setup self.now.frame C.MARK C.meaning) (R.holds self.now.shelf.now) (slots_in self.now.states.now) spot.stripe spot.role }
    {
        let place = Place {
            slot: spot.slot(),
            block: spot.stripe,
        };
        let cell = self.seen(place);
        *out = spot.judge::<C>(&cell);
    }

    // A block, judged alone.
    pub fn judge<C: Checksum>(&self, spot: Spot) -> Verdict
        requires same { spot.frame ≡ self.now.frame }
        requires within { spot.stripe < R.blocks self.now.shelf.now }
        ensures { result ≡ view_of (setup self.now.frame C.MARK C.meaning) (R.holds self.now.shelf.now) (slots_in self.now.states.now) spot.stripe spot.role }
    {
        let mut verdict = Err(Defect::Blind);
        self.judge_into::<C>(spot, &mut verdict);
        verdict
    }

    // Judges the data block of an index alone; an index that the stripe has not counts as blind.
    fn judge_data<C: Checksum>(&self, s: u32, j: u32, out: &mut Verdict)
        requires { s < R.blocks self.now.shelf.now }
        ensures { out.new ≡ view_of (setup self.now.frame C.MARK C.meaning) (R.holds self.now.shelf.now) (slots_in self.now.states.now) s (Role.Data j) }
    {
        let frame = self.frame;
        if j < frame.width {
            let at = DataSpot {
                frame,
                stripe: s,
                index: j,
            };
            self.judge_into::<C>(at.data(), out);
        } else {
            *out = Err(Defect::Blind);
        }
    }

    // Judges each data block of stripe s alone.
    fn look_data<C: Checksum>(&self, s: u32, data: &mut [Verdict; 7])
        requires { s < R.blocks self.now.shelf.now }
        ensures { «data».new ≡ row_of (view_of (setup self.now.frame C.MARK C.meaning) (R.holds self.now.shelf.now) (slots_in self.now.states.now) s) }
    {
        for (j, verdict) in data.iter_mut().enumerate() {
            self.judge_data::<C>(s, j as u32, verdict);
        }
    }

    // Judges the parity block of stripe s alone.
    fn look_parity<C: Checksum>(&self, s: u32, parity: &mut Verdict)
        requires { s < R.blocks self.now.shelf.now }
        ensures { parity.new ≡ view_of (setup self.now.frame C.MARK C.meaning) (R.holds self.now.shelf.now) (slots_in self.now.states.now) s Role.Parity }
    {
        let spot = Spot {
            frame: self.frame,
            stripe: s,
            role: Role::Parity,
        };
        self.judge_into::<C>(spot, parity);
    }

    // Looks at all blocks of stripe s, each judged alone, into a stripe that the caller keeps.
    pub fn look_into<C: Checksum>(&self, s: u32, stripe: &mut Stripe)
        requires { s < R.blocks self.now.shelf.now }
        ensures { stripe.new ≡ stripe_of (view_of (setup self.now.frame C.MARK C.meaning) (R.holds self.now.shelf.now) (slots_in self.now.states.now) s) }
    {
        self.look_data::<C>(s, &mut stripe.data);
        self.look_parity::<C>(s, &mut stripe.parity);
    }

    // All blocks of stripe s, each judged alone.
    pub fn look<C: Checksum>(&self, s: u32) -> Stripe
        requires { s < R.blocks self.now.shelf.now }
        ensures { result ≡ stripe_of (view_of (setup self.now.frame C.MARK C.meaning) (R.holds self.now.shelf.now) (slots_in self.now.states.now) s) }
    {
        let mut stripe = Stripe::unseen();
        self.look_into::<C>(s, &mut stripe);
        stripe
    }
}

impl Stripe {
    // A stripe of which nothing is seen.
    pub fn unseen() -> Stripe
        ensures { result ≡ unseen_stripe }
    {
        Stripe {
            parity: Err(Defect::Blind),
            data: [Err(Defect::Blind); 7],
        }
    }
}
