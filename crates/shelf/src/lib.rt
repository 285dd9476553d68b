// A shelf of cards: what can be read of it, and what it does with writes.
#![tactic(auto)]

ghost use Rattle.std.specs.Prelude.{◌≡◌, ℕ, ◌<◌, ◌≤◌, List, [], ◌∷◌, length};
ghost use Rattle.shelf.specs.Model.{Content, Conduct, OwnCard, AllSized, read_answer, read_buffer, write_answer, writes_taken, after_all, write_of};

use block::{Cell, Place, Refusal};

// What a read answers of a place: its bytes are there, or it is blind.
#[derive(Clone, Copy, PartialEq, Eq, Debug)]
pub enum Sight {
    Present,
    Blind,
}

// A shelf of 3 to 8 cards with 1 to 65,536 blocks each, which can be read.
pub trait ReadableShelf {
    // The number of cards.
    ghost cards: { Self → ℕ };

    // The number of blocks of a card.
    ghost blocks: { Self → ℕ };

    // What each place holds.
    ghost holds: { Self → Content };

    fn card_count(&self) -> u32
        ensures value { result ≡ cards self.now }
        ensures low { 3 ≤ result }
        ensures high { result ≤ 8 };

    fn block_count(&self) -> u32
        ensures value { result ≡ blocks self.now }
        ensures low { 1 ≤ result }
        ensures high { result ≤ 65536 };

    // The bytes of a place into the buffer; zeros where it is blind.
    fn read(&self, slot: u32, block: u32, buf: &mut [u8]) -> Result<Sight, Refusal>
        ensures answer { result ≡ read_answer (cards self.now) (blocks self.now) (holds self.now) slot block (length buf.old) }
        ensures buffer { buf.new ≡ read_buffer (cards self.now) (blocks self.now) (holds self.now) slot block buf.old };

    // A place that is not blind holds 128 bytes.
    ghost sized: { (s : Self) → AllSized (cards s) (blocks s) (holds s) };
}

// A readable shelf that also writes.
pub trait WritableShelf: ReadableShelf {
    // What each place holds.
    ghost content: { Self → Content };

    // What each place will hold after a list of writes, the first one first.
    ghost conduct: { Self → Conduct };

    fn write(&mut self, slot: u32, block: u32, bytes: &[u8]) -> Result<(), Refusal>
        ensures answer { result ≡ write_answer tt (Self.cards self.old) (Self.blocks self.old) slot block (length bytes.now) }
        ensures wrote { conduct self.new ≡ after_all (conduct self.old) (writes_taken (Self.cards self.old) (Self.blocks self.old) slot block bytes.now) }
        ensures cards { Self.cards self.new ≡ Self.cards self.old }
        ensures blocks { Self.blocks self.new ≡ Self.blocks self.old }
        ensures before { content self.old ≡ Self.holds self.old }
        ensures then { content self.new ≡ Self.holds self.new };

    ghost starts: { (s : Self) → conduct s [] ≡ content s };

    ghost same: { (s : Self) → content s ≡ Self.holds s };

    // A write changes its own card only, whatever was written before.
    ghost own: { (s : Self) → OwnCard (Self.cards s) (Self.blocks s) (conduct s) };
}

// What a place holds, of a place that the shelf has.
pub fn fetch<R: ReadableShelf>(shelf: &R, place: Place) -> Cell
    requires slot_within { place.slot < R.cards shelf.now }
    requires block_within { place.block < R.blocks shelf.now }
    ensures { result ≡ R.holds shelf.now place.slot place.block }
{
    let mut bytes = [0u8; 128];
    match shelf.read(place.slot, place.block, &mut bytes) {
        Ok(Sight::Present) => Some(bytes),
        Ok(Sight::Blind) => None,
        Err(_) => None,
    }
}

// Hands down the write of a whole block to a place that the shelf has.
pub fn store<W: WritableShelf>(shelf: &mut W, place: Place, bytes: &[u8; 128])
    requires slot_within { place.slot < W.cards shelf.old }
    requires block_within { place.block < W.blocks shelf.old }
    ensures wrote { W.conduct shelf.new ≡ after_all (W.conduct shelf.old) (write_of place.slot place.block bytes.now ∷ []) }
    ensures cards { W.cards shelf.new ≡ W.cards shelf.old }
    ensures blocks { W.blocks shelf.new ≡ W.blocks shelf.old }
{
    let _ = shelf.write(place.slot, place.block, bytes);
}
