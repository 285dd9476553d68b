// What a write makes of a stripe.
ghost use Rattle.std.specs.Prelude.{◌≡◌, ◌<◌, true, false};
ghost use Rattle.block.specs.Judging.{setup};
ghost use Rattle.stripe.specs.View.{seen_in, slots_in, view_of};
ghost use Rattle.writing.specs.Prepare.{pair_at, pair_of, prepared_by, ReadyBy};

use crate::shapes::{Pair, Prepared};
use block::{DataSpot, Record, Refusal, Role};
use checksum::Checksum;
use findings::{findings_all, findings_quick};
use mending::{base_version, new_data, new_parity, plan_of};
use patches::quick;
use runs::Way;
use shelf::ReadableShelf;
use stripe::{CardView, Finding, Plan, Stripe};

// Both blocks of a version one above the base, unless that is the greatest.
fn pair_at<C: Checksum>(
    base: u32,
    stripe: &Stripe,
    at: DataSpot,
    plan: Plan,
    bad: bool,
    kept: &Record,
) -> Result<Pair, Refusal>
    ensures { result ≡ pair_at base (setup at.frame C.MARK C.meaning) at.stripe (seen_in stripe.now) at.index plan bad kept.now.payload kept.now.owner }
{
    let version = base.checked_add(1).ok_or(Refusal::VersionLimit)?;
    Ok(Pair {
        block: new_data::<C>(at, kept, version),
        parity: new_parity::<C>(stripe, at, plan, bad, kept, version),
    })
}

// The blocks of a write by a plan; bad tells whether parity is in the mask.
#[tactic(auto, unfolding(crate::specs::Prepare::pair_of))]
fn pair_of<C: Checksum>(
    plan: Plan,
    bad: bool,
    stripe: &Stripe,
    at: DataSpot,
    kept: &Record,
) -> Result<Pair, Refusal>
    ensures { result ≡ pair_of plan bad (setup at.frame C.MARK C.meaning) at.stripe (seen_in stripe.now) at.index kept.now.payload kept.now.owner }
{
    match plan {
        Plan::Lost => Err(Refusal::Lost),
        Plan::BySum | Plan::ByAll => {
            pair_at::<C>(base_version(stripe, at), stripe, at, plan, bad, kept)
        }
    }
}

// The blocks of a write once only its data block and parity were looked at.
fn prepare_quick<C: Checksum>(stripe: &Stripe, at: DataSpot, kept: &Record) -> Prepared
    ensures { result ≡ prepared_by true (setup at.frame C.MARK C.meaning) at.stripe (seen_in stripe.now) at.index kept.now.payload kept.now.owner }
{
    Prepared {
        looks: 2,
        pair: pair_of::<C>(Plan::BySum, false, stripe, at, kept),
    }
}

// The blocks of a write once all places of the stripe were looked at.
fn prepare_full<C: Checksum>(stripe: &Stripe, at: DataSpot, kept: &Record) -> Prepared
    ensures { result ≡ prepared_by false (setup at.frame C.MARK C.meaning) at.stripe (seen_in stripe.now) at.index kept.now.payload kept.now.owner }
{
    let plan = plan_of(stripe, at);
    let bad = stripe.is_bad(at.parity());
    Prepared {
        looks: at.frame.width + 1,
        pair: pair_of::<C>(plan, bad, stripe, at, kept),
    }
}

// What a write makes ready once it looks at all places of its stripe; fills the findings.
fn prepare_all<R: ReadableShelf, C: Checksum>(
    cards: &CardView<R>,
    at: DataSpot,
    kept: &Record,
    findings: &mut [Finding; 8],
) -> Prepared
    requires same { at.frame ≡ cards.now.frame }
    requires within { at.stripe < R.blocks cards.now.shelf.now }
    ensures { ReadyBy Way.Additive (setup cards.now.frame C.MARK C.meaning) (R.holds cards.now.shelf.now) (slots_in cards.now.states.now) at.stripe at.index kept.now.payload kept.now.owner result findings.new }
{
    let stripe = cards.look::<C>(at.stripe);
    findings_all(&stripe, at.frame, at.stripe, None, findings);
    prepare_full::<C>(&stripe, at, kept)
}

// A stripe of which only a data block and parity are looked at.
fn look_two<R: ReadableShelf, C: Checksum>(cards: &CardView<R>, at: DataSpot) -> Stripe
    requires same { at.frame ≡ cards.now.frame }
    requires within { at.stripe < R.blocks cards.now.shelf.now }
    ensures own { seen_in result (Role.Data at.index) ≡ view_of (setup cards.now.frame C.MARK C.meaning) (R.holds cards.now.shelf.now) (slots_in cards.now.states.now) at.stripe (Role.Data at.index) }
    ensures parity { seen_in result Role.Parity ≡ view_of (setup cards.now.frame C.MARK C.meaning) (R.holds cards.now.shelf.now) (slots_in cards.now.states.now) at.stripe Role.Parity }
{
    let mut stripe = Stripe::unseen();
    stripe.data[at.index as usize] = cards.judge::<C>(at.data());
    stripe.parity = cards.judge::<C>(at.parity());
    stripe
}

// What a write makes ready that looks at its data block and parity, and at all places only if these two do not suffice.
fn prepare_two<R: ReadableShelf, C: Checksum>(
    cards: &CardView<R>,
    at: DataSpot,
    kept: &Record,
    findings: &mut [Finding; 8],
) -> Prepared
    requires same { at.frame ≡ cards.now.frame }
    requires within { at.stripe < R.blocks cards.now.shelf.now }
    ensures { ReadyBy Way.Subtractive (setup cards.now.frame C.MARK C.meaning) (R.holds cards.now.shelf.now) (slots_in cards.now.states.now) at.stripe at.index kept.now.payload kept.now.owner result findings.new }
{
    let stripe = look_two::<R, C>(cards, at);
    if quick(stripe.data_at(at.index), &stripe.parity, at.index) {
        findings_quick(at, findings);
        prepare_quick::<C>(&stripe, at, kept)
    } else {
        prepare_all::<R, C>(cards, at, kept, findings)
    }
}

// What a write of a data block makes ready, either way; fills the findings.
pub fn prepare<R: ReadableShelf, C: Checksum>(
    cards: &CardView<R>,
    at: DataSpot,
    kept: &Record,
    way: Way,
    findings: &mut [Finding; 8],
) -> Prepared
    requires same { at.frame ≡ cards.now.frame }
    requires within { at.stripe < R.blocks cards.now.shelf.now }
    ensures { ReadyBy way (setup cards.now.frame C.MARK C.meaning) (R.holds cards.now.shelf.now) (slots_in cards.now.states.now) at.stripe at.index kept.now.payload kept.now.owner result findings.new }
{
    match way {
        Way::Subtractive => prepare_two::<R, C>(cards, at, kept, findings),
        Way::Additive => prepare_all::<R, C>(cards, at, kept, findings),
    }
}
