// A scrub, stripe by stripe.
ghost use Rattle.std.specs.Prelude.{◌≡◌, ℕ, ◌+◌, ◌<◌, ◌≤◌, [], if◌then◌else◌, Ok};
ghost use Rattle.block.specs.Judging.{setup};
ghost use Rattle.shelf.specs.Model.{after_all};
ghost use Rattle.stripe.specs.View.{slots_in};
ghost use Rattle.runs.specs.Done.{ScrubDone};
ghost use Rattle.runs.specs.Scrubs.{swept_by, swept_of, sweep_writes, sweep_findings, counted, cursor_at, cursor_next, scrub_end, scrub_answer};
ghost use Rattle.scrubbing.specs.Counts.{ScrubBelow};

use block::{Frame, Refusal, Role, Spot};
use checksum::Checksum;
use findings::findings_all;
use patches::{apply_patch, patch_by};
use runs::{ScrubCounts, Swept};
use shelf::WritableShelf;
use stripe::{CardSet, Decision, Finding, Stripe, takes};

// What a scrub does at stripe s, by what the bad blocks decide.
fn swept_by<W: WritableShelf>(cards: &CardSet<W>, s: u32, decision: Decision) -> Swept
    requires placed { (j : ℕ) → decision ≡ Decision.Only (Role.Data j) → j < cards.now.frame.width }
    ensures { result ≡ swept_by cards.now.frame.width (slots_in cards.now.states) s decision }
{
    match decision {
        Decision::Clean => Swept::Clean,
        Decision::Only(role) => {
            let spot = Spot {
                frame: cards.frame,
                stripe: s,
                role,
            };
            if takes(cards.states[spot.slot() as usize], s) {
                Swept::Mended
            } else {
                Swept::Short
            }
        }
        Decision::Lost => Swept::Lost,
    }
}

// Looks at stripe s, mends its only bad block unless its place takes no writes, and fills the findings if it is the last stripe.
fn sweep_one<W: WritableShelf, C: Checksum>(
    cards: &mut CardSet<W>,
    s: u32,
    last: bool,
    stripe: &mut Stripe,
    findings: &mut [Finding; 8],
) -> Swept
    requires { s < cards.old.frame.blocks }
    ensures is { result ≡ swept_of (setup cards.old.frame C.MARK C.meaning) (W.conduct cards.old.shelf []) (slots_in cards.old.states) s }
    ensures wrote { W.conduct cards.new.shelf ≡ after_all (W.conduct cards.old.shelf) (sweep_writes (setup cards.old.frame C.MARK C.meaning) (W.conduct cards.old.shelf []) (slots_in cards.old.states) s) }
    ensures findings { findings.new ≡ (if last then sweep_findings (setup cards.old.frame C.MARK C.meaning) (W.conduct cards.old.shelf []) (slots_in cards.old.states) s else findings.old) }
    ensures frame { cards.new.frame ≡ cards.old.frame }
    ensures states { cards.new.states ≡ cards.old.states }
{
    let frame = cards.frame;
    cards.view().look_into::<C>(s, stripe);
    let decision = stripe.decide(frame, s);
    let patch = patch_by::<C>(decision, stripe, frame, s);
    let mended = apply_patch(cards, s, patch);
    if last {
        findings_all(stripe, frame, s, mended, findings);
    }
    swept_by(cards, s, decision)
}

// Counts one stripe more.
fn count(counts: &mut ScrubCounts, swept: Swept)
    requires few { counts.old.looked < 65536 }
    requires below { ScrubBelow counts.old counts.old.looked }
    ensures is { counts.new ≡ counted counts.old swept }
    ensures looked { counts.new.looked ≡ counts.old.looked + 1 }
    ensures below { ScrubBelow counts.new counts.new.looked }
{
    counts.looked += 1;
    match swept {
        Swept::Clean => counts.clean += 1,
        Swept::Mended => counts.mended += 1,
        Swept::Short => counts.short += 1,
        Swept::Lost => counts.lost += 1,
    }
}

// The stripe that a cursor names; a cursor beyond the array counts as 0.
fn cursor_at(frame: Frame, cursor: u32) -> u32
    ensures is { result ≡ cursor_at frame.blocks cursor }
    ensures below { result < frame.blocks }
{
    if cursor < frame.blocks { cursor } else { 0 }
}

// The cursor after stripe s.
fn cursor_next(frame: Frame, s: u32) -> u32
    requires { s < frame.blocks }
    ensures { result ≡ cursor_next frame.blocks s }
{
    if s + 1 < frame.blocks { s + 1 } else { 0 }
}

// The stripes of a scrub, one after the other.
fn sweep_many<W: WritableShelf, C: Checksum>(
    cards: &mut CardSet<W>,
    cursor: &mut u32,
    stripes: u32,
    findings: &mut [Finding; 8],
) -> ScrubCounts
    requires few { stripes ≤ 65536 }
    ensures answer { Ok result ≡ scrub_answer (setup cards.old.frame C.MARK C.meaning) (W.conduct cards.old.shelf) (slots_in cards.old.states) cursor.old stripes findings.old }
    ensures done { ScrubDone (scrub_end (setup cards.old.frame C.MARK C.meaning) (W.conduct cards.old.shelf) (slots_in cards.old.states) cursor.old stripes findings.old) (W.conduct cards.new.shelf) cursor.new findings.new }
    ensures frame { cards.new.frame ≡ cards.old.frame }
    ensures states { cards.new.states ≡ cards.old.states }
{
    let mut counts = ScrubCounts::default();
    let mut stripe = Stripe::unseen();
    // i tells which stripe is the last one.
    for i in 0..stripes {
        let s = cursor_at(cards.frame, *cursor);
        let last = i + 1 == stripes;
        let swept = sweep_one::<W, C>(cards, s, last, &mut stripe, findings);
        count(&mut counts, swept);
        *cursor = cursor_next(cards.frame, s);
    }
    counts
}

// A scrub of so many stripes from the cursor; more than 65,536 are refused, and nothing changes.
#[tactic(auto, unfolding(runs::specs::Scrubs::scrub_end, runs::specs::Scrubs::scrub_answer))]
pub fn scrub_call<W: WritableShelf, C: Checksum>(
    cards: &mut CardSet<W>,
    cursor: &mut u32,
    stripes: u32,
    findings: &mut [Finding; 8],
) -> Result<ScrubCounts, Refusal>
    ensures answer { result ≡ scrub_answer (setup cards.old.frame C.MARK C.meaning) (W.conduct cards.old.shelf) (slots_in cards.old.states) cursor.old stripes findings.old }
    ensures done { ScrubDone (scrub_end (setup cards.old.frame C.MARK C.meaning) (W.conduct cards.old.shelf) (slots_in cards.old.states) cursor.old stripes findings.old) (W.conduct cards.new.shelf) cursor.new findings.new }
    ensures frame { cards.new.frame ≡ cards.old.frame }
    ensures states { cards.new.states ≡ cards.old.states }
{
    if stripes > 65536 {
        return Err(Refusal::Place);
    }
    Ok(sweep_many::<W, C>(cards, cursor, stripes, findings))
}
