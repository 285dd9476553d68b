// Work whose time is measured: one kind of call on an array over an image, many times.
ghost use Rattle.std.specs.Prelude.{◌≤◌};

use crate::answers::{rebuild_words, scrub_words};
use array::{Array, show};
use block::Refusal;
use checksum::Checksum;
use image::Image;
use runs::{Switch, Way};
use shelf::{ReadableShelf, WritableShelf};
use std::alloc::Global;
use stripe::Finding;

// What stands for work that could not begin.
const NONE: u64 = u64::MAX;

// The owner of every record.
const OWNER: u32 = 7;

// The order of the addresses.
#[derive(Clone, Copy)]
pub(crate) enum Order {
    Rising,
    Random,
}

// A kind of work.
#[derive(Clone, Copy)]
pub(crate) enum Kind {
    Nothing,
    Format,
    Reads(Order),
    Writes(Way),
    Scrub,
    Rebuild,
}

// The kind that a number names. A number that names none is nothing to do.
impl From<u32> for Kind {
    fn from(number: u32) -> Kind {
        match number {
            1 => Kind::Format,
            2 => Kind::Reads(Order::Rising),
            3 => Kind::Reads(Order::Random),
            4 => Kind::Writes(Way::Additive),
            5 => Kind::Writes(Way::Subtractive),
            6 => Kind::Scrub,
            7 => Kind::Rebuild,
            _ => Kind::Nothing,
        }
    }
}

// An array's shape and tag, the kind of work and how much of it.
#[derive(Clone, Copy)]
pub(crate) struct Work {
    pub(crate) cards: u32,
    pub(crate) blocks: u32,
    pub(crate) tag: u32,
    pub(crate) kind: Kind,
    pub(crate) count: u32,
}

type Cards<C> = Array<Image, C>;

fn mixed(number: u64, n: u32) -> u64 {
    number.wrapping_mul(31).wrapping_add(u64::from(n))
}

// The words of an accepted call mixed in, or the refusal's number.
fn mixed_answer<const N: usize>(number: u64, answer: Result<[u32; N], Refusal>) -> u64 {
    match &answer {
        Ok(words) => words.iter().copied().fold(number, mixed),
        Err(refusal) => mixed(number, u32::from(refusal.number())),
    }
}

// The next number of the sequence that random addresses come from.
fn drawn(x: u32) -> u32 {
    x.wrapping_mul(1103515245).wrapping_add(12345)
}

// The address of a number of the sequence, of so many addresses.
fn address_of(x: u32, addresses: u32) -> u32
    requires { 1 ≤ addresses }
{
    x.rotate_left(16) % addresses
}

// The number of addresses of a shape, at least 1.
fn addresses_of(work: Work) -> u32
    ensures { 1 ≤ result }
{
    let width = work.cards.saturating_sub(1);
    width.saturating_mul(work.blocks).max(1)
}

// One read: its first payload byte and its looks.
fn read_one<C: Checksum>(
    array: &mut Cards<C>,
    address: u32,
    found: &mut [u8; 128],
    rebuilt: &mut [u8; 128],
    findings: &mut [Finding; 8],
) -> Result<[u32; 2], Refusal> {
    let switch = Switch { mending: false };
    let answer = array.read(address, OWNER, &switch, found, rebuilt, findings)?;
    let payload = show(answer.source, found, rebuilt)?;
    let first = payload.first().copied().unwrap_or(0);
    Ok([u32::from(first), answer.looks])
}

// So many steps, one after the other. A step takes the number, the turn's number and a random address, and answers the
// number with its own words mixed in.
fn turns<F: FnMut(u64, u32, u32) -> u64>(work: Work, mut step: F) -> u64
    requires { F.IsAlwaysCallable step }
{
    let addresses = addresses_of(work);
    let mut number = 0;
    let mut x = 1;
    for turn in 0..work.count {
        x = drawn(x);
        number = step(number, turn, address_of(x, addresses));
    }
    number
}

fn reads<C: Checksum>(array: &mut Cards<C>, work: Work, order: Order) -> u64 {
    let mut found = [0u8; 128];
    let mut rebuilt = [0u8; 128];
    let mut findings = [Finding::default(); 8];
    turns(work, |number, turn, random| {
        let address = match order {
            Order::Rising => turn,
            Order::Random => random,
        };
        let answer = read_one(array, address, &mut found, &mut rebuilt, &mut findings);
        mixed_answer(number, answer)
    })
}

fn writes<C: Checksum>(array: &mut Cards<C>, work: Work, way: Way) -> u64 {
    let mut findings = [Finding::default(); 8];
    turns(work, |number, turn, address| {
        let payload = [(turn & 255) as u8; 80];
        let answer = array.write(address, OWNER, &payload, way, &mut findings);
        mixed_answer(number, answer.map(|written| [written.looks]))
    })
}

fn scrub<C: Checksum>(array: &mut Cards<C>, count: u32) -> Result<[u32; 5], Refusal> {
    let counts = array.scrub(count, &mut [Finding::default(); 8])?;
    Ok(scrub_words(counts))
}

fn rebuild<C: Checksum>(array: &mut Cards<C>, count: u32) -> Result<[u32; 3], Refusal> {
    array.pull(1)?;
    let job = array.fit(1)?;
    let answer = array.rebuild(&job, count);
    if let Err(back) = array.finish(job) {
        let _ = array.give_up(back.value);
    }
    Ok(rebuild_words(answer?))
}

fn worked<C: Checksum>(array: &mut Cards<C>, work: Work) -> u64 {
    match work.kind {
        Kind::Nothing | Kind::Format => 0,
        Kind::Reads(order) => reads(array, work, order),
        Kind::Writes(way) => writes(array, work, way),
        Kind::Scrub => mixed_answer(0, scrub(array, work.count)),
        Kind::Rebuild => mixed_answer(0, rebuild(array, work.count)),
    }
}

// The last byte of the last block of an image, before its flags.
fn last_byte(bytes: &[u8], work: Work) -> u8 {
    let places = (work.cards as usize).saturating_mul(work.blocks as usize);
    let end = places.saturating_mul(128);
    bytes.get(end.saturating_sub(1)).copied().unwrap_or(0)
}

// Opens or formats an array over an image of a copy of the bytes, works on it, and closes it. At the end the last byte of
// the last block is mixed in.
fn done<C: Checksum>(heap: Global, work: Work, bytes: &[u8]) -> Option<u64> {
    let copy = bytes.to_vec(heap).ok()?;
    let image = Image::open(work.cards, work.blocks, copy).ok()?;
    let begun = match work.kind {
        Kind::Format => Cards::<C>::format(image, work.tag),
        _ => Cards::<C>::open(image, work.tag),
    };
    let mut array = begun.ok()?;
    let number = worked(&mut array, work);
    let image = array.close().into_bytes();
    Some(mixed(number, u32::from(last_byte(image.as_slice(), work))))
}

// Does the work on an array over an image of the bytes; answers a number that depends on the results.
pub(crate) fn bench<C: Checksum>(heap: Global, work: Work, bytes: &[u8]) -> u64 {
    done::<C>(heap, work, bytes).unwrap_or(NONE)
}
