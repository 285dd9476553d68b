// The array for callers in C or Rust: two functions on numbers and byte slices, each of which makes all that it needs.
// outside/PROTOCOL.md says what they take and give.
#![tactic(auto)]

ghost use Rattle.std.specs.Prelude.{◌≤◌, length};

use answers::Answers;
use calls::Calls;
use checksum::{Fletcher, Turning};
use player::{Begin, Start, replay};
use std::alloc::Global;
use work::{Kind, Work, bench};

mod answers;
mod calls;
mod player;
mod work;

// A checksum of the two that there are.
enum Sum {
    Fletcher,
    Turning,
}

// The checksum that a number names.
impl From<u32> for Sum {
    fn from(number: u32) -> Sum {
        match number {
            1 => Sum::Fletcher,
            _ => Sum::Turning,
        }
    }
}

// Plays calls on an array over a fault layer over an image; answers the number of bytes of the answers.
#[unsafe(no_mangle)]
pub extern "C" fn cards_replay(
    heap: Global,
    sum: u32,
    cards: u32,
    blocks: u32,
    tag: u32,
    made: u32,
    begun: u32,
    image: &[u8],
    calls: &[u8],
    answers: &mut [u8],
) -> usize
    ensures { result ≤ length answers.old }
{
    let start = Start {
        cards,
        blocks,
        tag,
        image: (made == 0).then_some(image),
        begin: match begun {
            0 => Begin::Open,
            _ => Begin::Format,
        },
    };
    let room = answers.len();
    let calls = Calls::of(calls);
    let mut out = Answers::of(answers);
    match Sum::from(sum) {
        Sum::Fletcher => replay::<Fletcher>(heap, start, calls, &mut out),
        Sum::Turning => replay::<Turning>(heap, start, calls, &mut out),
    }
    out.written().min(room)
}

// Does one kind of work on an array over an image; answers a number that depends on the results.
#[unsafe(no_mangle)]
pub extern "C" fn cards_bench(
    heap: Global,
    sum: u32,
    cards: u32,
    blocks: u32,
    tag: u32,
    what: u32,
    count: u32,
    image: &[u8],
) -> u64 {
    let work = Work {
        cards,
        blocks,
        tag,
        kind: Kind::from(what),
        count,
    };
    match Sum::from(sum) {
        Sum::Fletcher => bench::<Fletcher>(heap, work, image),
        Sum::Turning => bench::<Turning>(heap, work, image),
    }
}
