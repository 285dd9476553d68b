// Reading a block.
ghost use Rattle.std.specs.Prelude.{◌≡◌, ℕ};
ghost use Rattle.block.specs.Judging.{setup};
ghost use Rattle.stripe.specs.View.{slots_in};
ghost use Rattle.runs.specs.Done.{PatchBelow, ReadDone};
ghost use Rattle.runs.specs.Reads.{read_patch, read_call};
ghost use Rattle.reading.specs.Sights.{settled_of, findings_from};

use crate::gathering::sight;
use crate::shapes::Settled;
use block::{DataSpot, Refusal, owner};
use checksum::Checksum;
use findings::{findings_all, findings_quick};
use patches::apply_patch;
use runs::{Gathered, Obtained, Patch, ReadAnswer, Source};
use shelf::WritableShelf;
use stripe::{CardSet, Finding, Stripe};

// What a read for an owner gives. A buffer that is not given is zero; reads given rebuilt are counted.
pub(crate) fn settle(gathered: &Gathered, tally: u32, asked: u32) -> Settled
    ensures { result ≡ settled_of gathered.now tally asked }
{
    let zeros = [0; 128];
    let (source, found, rebuilt, tally) = match gathered.obtained {
        Obtained::Found(b) if owner(&b) == asked => (Ok(Source::Found), b, zeros, tally),
        Obtained::Rebuilt(b) if owner(&b) == asked => {
            (Ok(Source::Rebuilt), zeros, b, tally.saturating_add(1))
        }
        Obtained::Found(_) | Obtained::Rebuilt(_) => {
            (Err(Refusal::OtherOwner), zeros, zeros, tally)
        }
        Obtained::Lost => (Err(Refusal::Lost), zeros, zeros, tally),
    };
    let looks = gathered.looks;
    Settled {
        answer: source.map(|source| ReadAnswer { source, looks }),
        found,
        rebuilt,
        tally,
    }
}

// The patch to hand down: an accepted read mends if the switch is on.
fn read_patch(
    mending: bool,
    answer: &Result<ReadAnswer, Refusal>,
    patch: Option<Patch>,
) -> Option<Patch>
    ensures is { result ≡ read_patch mending answer.now patch }
    ensures below { (n : ℕ) → PatchBelow n patch → PatchBelow n result }
{
    if mending && answer.is_ok() {
        patch
    } else {
        None
    }
}

// The findings of the whole stripe, or of a data block and its parity alone.
fn fill_findings(at: DataSpot, stripe: &Option<Stripe>, mended: Option<u32>, out: &mut [Finding; 8])
    ensures { out.new ≡ findings_from at.frame.width at.stripe at.index stripe.now mended }
{
    match stripe {
        Some(stripe) => findings_all(stripe, at.frame, at.stripe, mended, out),
        None => findings_quick(at, out),
    }
}

// The read of an address for an owner, with the mending switch on or off. A buffer that is not 128 bytes long is refused
// first, then an address beyond the array; a read refused so changes nothing.
#[tactic(auto, unfolding(runs::specs::Reads::read_call))]
pub fn read_call<W: WritableShelf, C: Checksum>(
    cards: &mut CardSet<W>,
    tally: &mut u32,
    address: u32,
    owner: u32,
    mending: bool,
    found: &mut [u8],
    rebuilt: &mut [u8],
    findings: &mut [Finding; 8],
) -> Result<ReadAnswer, Refusal>
    ensures done { ReadDone (read_call (setup cards.old.frame C.MARK C.meaning) (W.holds cards.old.shelf) (slots_in cards.old.states) tally.old address owner mending found.old rebuilt.old findings.old) (W.conduct cards.old.shelf) (W.conduct cards.new.shelf) result found.new rebuilt.new findings.new tally.new }
    ensures frame { cards.new.frame ≡ cards.old.frame }
    ensures states { cards.new.states ≡ cards.old.states }
{
    if found.len() != 128 || rebuilt.len() != 128 {
        return Err(Refusal::Length);
    }
    let at = cards.frame.data_spot(address)?;
    let sighted = sight::<W, C>(&cards.view(), at);
    let settled = settle(&sighted.gathered, *tally, owner);
    let patch = read_patch(mending, &settled.answer, sighted.gathered.patch);
    let mended = apply_patch(cards, at.stripe, patch);
    fill_findings(at, &sighted.stripe, mended, findings);
    found.copy_from_slice(&settled.found);
    rebuilt.copy_from_slice(&settled.rebuilt);
    *tally = settled.tally;
    settled.answer
}
