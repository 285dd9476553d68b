// Looking at a stretch of addresses.
ghost use Rattle.std.specs.Prelude.{◌≡◌, ◌+◌, ◌*◌, ◌<◌, ◌≤◌, length};
ghost use Rattle.block.specs.Judging.{setup};
ghost use Rattle.stripe.specs.View.{slots_in};
ghost use Rattle.runs.specs.Done.{LookDone};
ghost use Rattle.runs.specs.Looks.{look_read, look_from, look_call};
ghost use Rattle.reading.specs.Stretches.{settled_in, seen_as, stretch_in};

use crate::gathering::gather;
use crate::reading::settle;
use crate::shapes::Settled;
use crate::showing::payload_of;
use block::{DataSpot, Frame, Refusal};
use checksum::Checksum;
use runs::LookAnswer;
use shelf::ReadableShelf;
use stripe::CardView;

// The read of one address of a look; nothing is mended.
#[tactic(auto, unfolding(runs::specs::Reads::read_at))]
fn look_read<R: ReadableShelf, C: Checksum>(
    cards: &CardView<R>,
    tally: u32,
    address: u32,
    owner: u32,
) -> Settled
    requires blocks { R.blocks cards.now.shelf.now ≡ cards.now.frame.blocks }
    requires within { address < cards.now.frame.width * cards.now.frame.blocks }
    ensures { result ≡ settled_in (look_read (setup cards.now.frame C.MARK C.meaning) (R.holds cards.now.shelf.now) (slots_in cards.now.states.now) owner tally address) }
{
    let frame = cards.frame;
    let at = DataSpot {
        frame,
        stripe: address / frame.width,
        index: address % frame.width,
    };
    settle(&gather::<R, C>(cards, at), tally, owner)
}

// The reads of a stretch; what is not read after a stop is zero.
#[tactic(auto, using(crate::proofs::Stretching::so_far_none, crate::proofs::Stretching::so_far_all))]
fn look_from<R: ReadableShelf, C: Checksum>(
    cards: &CardView<R>,
    tally: &mut u32,
    first: u32,
    count: u32,
    owner: u32,
    out: &mut [u8],
) -> LookAnswer
    requires blocks { R.blocks cards.now.shelf.now ≡ cards.now.frame.blocks }
    requires within { first + count ≤ cards.now.frame.width * cards.now.frame.blocks }
    requires long { length out.old ≡ 80 * count }
    ensures { seen_as result out.new tally.new ≡ look_from (setup cards.now.frame C.MARK C.meaning) (R.holds cards.now.shelf.now) (slots_in cards.now.states.now) owner count first tally.old }
{
    // By number: after chunks_exact_mut a proof knows nothing of what the buffer ends as.
    for i in 0..count {
        let settled = look_read::<R, C>(cards, *tally, first + i, owner);
        *tally = settled.tally;
        let start = 80 * i as usize;
        match settled.answer {
            Ok(a) => {
                let payload = payload_of(a.source, &settled.found, &settled.rebuilt);
                out[start..start + 80].copy_from_slice(payload);
            }
            Err(e) => {
                out[start..].fill(0);
                return LookAnswer {
                    read: i,
                    stopped: Some(e),
                };
            }
        }
    }
    LookAnswer {
        read: count,
        stopped: None,
    }
}

// Whether a stretch of addresses lies in the array.
fn is_stretch(frame: Frame, first: u32, count: u32) -> bool
    ensures { result ≡ stretch_in frame.width frame.blocks first count }
{
    let top = u64::from(frame.width * frame.blocks);
    u64::from(first) < top && u64::from(first) + u64::from(count) <= top
}

// A look at count addresses from the first on, for an owner, into 80 bytes each. A buffer of another length is refused first,
// then a stretch beyond the array. The look stops at the first block that is lost or has another owner; nothing is mended.
#[tactic(auto, unfolding(runs::specs::Looks::look_call))]
pub fn look_call<R: ReadableShelf, C: Checksum>(
    cards: &CardView<R>,
    tally: &mut u32,
    first: u32,
    count: u32,
    owner: u32,
    out: &mut [u8],
) -> Result<LookAnswer, Refusal>
    requires blocks { R.blocks cards.now.shelf.now ≡ cards.now.frame.blocks }
    ensures { LookDone (look_call (setup cards.now.frame C.MARK C.meaning) (R.holds cards.now.shelf.now) (slots_in cards.now.states.now) tally.old first count owner out.old) result out.new tally.new }
{
    if out.len() != 80 * count as usize {
        return Err(Refusal::Length);
    }
    if !is_stretch(cards.frame, first, count) {
        return Err(Refusal::Address);
    }
    Ok(look_from::<R, C>(cards, tally, first, count, owner, out))
}
