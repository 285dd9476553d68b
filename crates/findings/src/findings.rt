// What is found at each place of a stripe.
ghost use Rattle.std.specs.Prelude.{◌≡◌, Bool, ◌||◌, ℕ, ◌<◌, ◌≤◌, eqb};
ghost use Rattle.stripe.specs.View.{seen_in};
ghost use Rattle.stripe.specs.Findings.{layer_in, condition_of, greater, greatest_lead, lead_shown, finding_of, not_looked, is_mended, found_at, findings_all, found_quick, findings_quick};

use block::{DataSpot, Frame, Role, Spot, Verdict};
use std::array;
use stripe::{Cause, Condition, Finding, Layer, Stripe, lead_at};

fn layer_in(condition: Condition) -> Option<Layer>
    ensures { result ≡ layer_in condition }
{
    match condition {
        Condition::NotLooked | Condition::Readable => None,
        Condition::Bad(cause) => Some(cause.layer()),
    }
}

// The condition of a block by its verdict, and whether it is in the mask.
fn condition_of(block: &Verdict, bad: bool) -> Condition
    ensures { result ≡ condition_of block.now bad }
{
    match block {
        Err(defect) => Condition::Bad(Cause::from(*defect)),
        Ok(_) if bad => Condition::Bad(Cause::Behind),
        Ok(_) => Condition::Readable,
    }
}

// The greater of two leads, if any.
fn greater_of(x: Option<i64>, y: Option<i64>) -> Option<i64>
    ensures { result ≡ greater x y }
{
    x.max(y)
}

fn greatest_lead(stripe: &Stripe, width: u32) -> Option<i64>
    requires { width ≤ 7 }
    ensures { result ≡ greatest_lead (seen_in stripe.now) width }
{
    let mut greatest = None;
    for (j, block) in stripe.data[..width as usize].iter().enumerate() {
        greatest = greater_of(lead_at(block, &stripe.parity, j as u32), greatest);
    }
    greatest
}

// The lead that is shown for a block.
fn lead_shown(stripe: &Stripe, spot: Spot) -> Option<i64>
    ensures { result ≡ lead_shown spot.frame.width (seen_in stripe.now) spot.role }
{
    match spot.role {
        Role::Parity => greatest_lead(stripe, spot.frame.width),
        Role::Data(j) => lead_at(stripe.data_at(j), &stripe.parity, j),
    }
}

fn finding_of(
    slot: u32,
    block: u32,
    condition: Condition,
    lead: Option<i64>,
    mended: bool,
) -> Finding
    ensures { result ≡ finding_of slot block condition lead mended }
{
    Finding {
        slot,
        block,
        condition,
        layer: layer_in(condition),
        lead,
        mended,
    }
}

fn not_looked(s: u32, slot: u32) -> Finding
    ensures { result ≡ not_looked s slot }
{
    finding_of(slot, s, Condition::NotLooked, None, false)
}

fn is_mended(mended: Option<u32>, slot: u32) -> bool
    ensures { result ≡ is_mended mended slot }
{
    mended == Some(slot)
}

fn found_at(stripe: &Stripe, frame: Frame, s: u32, mended: Option<u32>, slot: u32) -> Finding
    ensures { result ≡ found_at frame.width s (seen_in stripe.now) mended slot }
{
    if slot > frame.width {
        return not_looked(s, slot);
    }
    let spot = frame.spot_at(s, slot);
    finding_of(
        slot,
        s,
        condition_of(stripe.at(spot), stripe.is_bad(spot)),
        lead_shown(stripe, spot),
        is_mended(mended, slot),
    )
}

// The findings of stripe s, all of whose places were looked at, with the slot that was mended, if any.
pub fn findings_all(
    stripe: &Stripe,
    frame: Frame,
    s: u32,
    mended: Option<u32>,
    out: &mut [Finding; 8],
)
    ensures { out.new ≡ findings_all frame.width s (seen_in stripe.now) mended }
{
    *out = array::from_fn(|slot| found_at(stripe, frame, s, mended, slot as u32));
}

fn found_quick(at: DataSpot, slot: u32) -> Finding
    ensures { result ≡ found_quick at.frame.width at.stripe at.index slot }
{
    if slot == at.data().slot() || slot == at.parity().slot() {
        finding_of(slot, at.stripe, Condition::Readable, Some(0), false)
    } else {
        not_looked(at.stripe, slot)
    }
}

// The findings where only a data block and its parity were looked at, both readable and level.
#[tactic(auto, unfolding(stripe::specs::Findings::findings_quick))]
pub fn findings_quick(at: DataSpot, out: &mut [Finding; 8])
    ensures { out.new ≡ findings_quick at.frame.width at.stripe at.index }
{
    *out = array::from_fn(|slot| found_quick(at, slot as u32));
}
