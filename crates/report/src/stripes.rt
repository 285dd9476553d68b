// The report of one stripe.
ghost use Rattle.std.specs.Prelude.{◌≡◌, ℕ, ◌+◌, ◌<◌};
ghost use Rattle.block.specs.Judging.{setup};
ghost use Rattle.stripe.specs.Survey.{setup_on};
ghost use Rattle.stripe.specs.View.{slots_in, all_in};
ghost use Rattle.report.specs.Reports.{report_at, stripe_report};

use crate::shapes::StripeReport;
use block::Refusal;
use checksum::Checksum;
use findings::findings_all;
use shelf::ReadableShelf;
use stripe::{CardView, Finding, all_slots_in, frame_of};

fn report_of<R: ReadableShelf, C: Checksum>(cards: &CardView<R>, stripe: u32) -> StripeReport
    requires within { stripe < R.blocks cards.now.shelf.now }
    requires all_in { slots_in cards.now.states.now ≡ all_in }
    ensures { result ≡ report_at (setup cards.now.frame C.MARK C.meaning) (R.holds cards.now.shelf.now) stripe }
{
    let frame = cards.frame;
    let seen = cards.look::<C>(stripe);
    let mut findings = [Finding::default(); 8];
    findings_all(&seen, frame, stripe, None, &mut findings);
    StripeReport {
        stripe,
        cards: frame.width + 1,
        parity: frame.parity_slot(stripe),
        mask: seen.mask(frame, stripe),
        findings,
    }
}

// What is found of one stripe of an array on a shelf, with all slots in. A tag of 0 is refused first, then a stripe
// that the shelf has not.
pub fn report_stripe<R: ReadableShelf, C: Checksum>(
    shelf: &R,
    tag: u32,
    stripe: u32,
) -> Result<StripeReport, Refusal>
    ensures { result ≡ stripe_report (setup_on (R.cards shelf.now) (R.blocks shelf.now) tag C.MARK C.meaning) (R.holds shelf.now) stripe }
{
    if tag == 0 {
        return Err(Refusal::Shape);
    }
    if stripe >= shelf.block_count() {
        return Err(Refusal::Place);
    }
    let states = all_slots_in();
    let cards = CardView {
        shelf,
        frame: frame_of(shelf, tag),
        states: &states,
    };
    Ok(report_of::<R, C>(&cards, stripe))
}
