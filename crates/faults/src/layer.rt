// The fault layer: a shelf by value and the table of the faults on it.
//
// A write that the shelf would refuse is refused and uses no plan. Any other uses up the earliest plan for
// its place. With no plan it is passed down, and a mark on the place goes. Lose and spoil write nothing, and a
// spoil leaves a mark on the place. Tear writes the first bytes and leaves the old rest, and nothing where the
// place is blind. Stray writes straight to another block of the card, whose plans it does not use and whose
// mark goes. A marked place is blind until a write is passed to it.
ghost use Rattle.std.specs.Prelude.{◌≡◌, true, false, [], length, MatchResult};
ghost use Rattle.shelf.specs.Model.{after_all, inside, write_of, write_answer, writes_taken};
ghost use Rattle.faults.specs.Faults.{screened, torn, lay_answer, lay_rows, blind_answer, blind_rows, flip_answer, flip_writes, torn_writes, writes_by, passed, rows_after, fault_conduct, screened_sized};
ghost use Rattle.faults.specs.Rows.{place_of};
ghost use Rattle.faults.specs.Tables.{rows_of};
ghost use Rattle.faults.specs.Conducts.{fault_own};
ghost use Rattle.std.proofs.Common.{rules};

use crate::rows::{Plan, Row};
use crate::table::{Found, Table};
use block::{Cell, Place, Refusal};
use shelf::{ReadableShelf, Sight, WritableShelf, fetch, store};

// A shelf with faults.
#[derive(Drop)]
pub struct FaultLayer<W> {
    shelf: W,
    table: Table,
}

impl<W> FaultLayer<W> {
    // A layer with no plan and no mark.
    pub fn over(shelf: W) -> FaultLayer<W>
        ensures shelf { result.shelf ≡ shelf }
        ensures rows { rows_of result.table ≡ [] }
    {
        FaultLayer {
            shelf,
            table: Table::empty(),
        }
    }

    // The shelf under the layer.
    pub fn into_inner(self) -> W
        ensures { result ≡ self.shelf }
    {
        self.shelf
    }

    // How many of the 32 rows are in use.
    pub fn rows_used(&self) -> u32
        ensures { result ≡ length (rows_of self.now.table) }
    {
        self.table.count() as u32
    }
}

impl<W: WritableShelf> FaultLayer<W> {
    // The place, of a shelf that has it.
    fn place(&self, slot: u32, block: u32) -> Result<Place, Refusal>
        ensures { MatchResult result (λ p. (inside (W.cards self.now.shelf) (W.blocks self.now.shelf) slot block ≡ true) × (p ≡ place_of slot block)) (λ e. (inside (W.cards self.now.shelf) (W.blocks self.now.shelf) slot block ≡ false) × (e ≡ Refusal.Place)) }
    {
        if slot < self.shelf.card_count() && block < self.shelf.block_count() {
            Ok(Place { slot, block })
        } else {
            Err(Refusal::Place)
        }
    }

    // Plans a fault for a write to the place, after the plans that are there. What is out of range is
    // refused first, then a full table.
    pub fn lay(&mut self, slot: u32, block: u32, plan: Plan) -> Result<(), Refusal>
        ensures answer { result ≡ lay_answer tt (W.cards self.old.shelf) (W.blocks self.old.shelf) (rows_of self.old.table) slot block plan }
        ensures rows { rows_of self.new.table ≡ lay_rows (W.cards self.old.shelf) (W.blocks self.old.shelf) (rows_of self.old.table) slot block plan }
        ensures shelf { self.new.shelf ≡ self.old.shelf }
    {
        let place = self.place(slot, block)?;
        if !plan.fits(block, self.shelf.block_count()) {
            return Err(Refusal::Place);
        }
        self.table.add(Row::Planned(place, plan))
    }

    // Marks the place: it is blind until a write is passed to it. A second mark takes no row.
    pub fn blind(&mut self, slot: u32, block: u32) -> Result<(), Refusal>
        ensures answer { result ≡ blind_answer tt (W.cards self.old.shelf) (W.blocks self.old.shelf) (rows_of self.old.table) slot block }
        ensures rows { rows_of self.new.table ≡ blind_rows (W.cards self.old.shelf) (W.blocks self.old.shelf) (rows_of self.old.table) slot block }
        ensures shelf { self.new.shelf ≡ self.old.shelf }
    {
        let place = self.place(slot, block)?;
        if self.table.is_marked(place) {
            return Ok(());
        }
        self.table.add(Row::Mark(place))
    }

    // What the layer shows of a place that the shelf has.
    fn shown(&self, place: Place) -> Cell
        requires { inside (W.cards self.now.shelf) (W.blocks self.now.shelf) place.slot place.block ≡ true }
        ensures { result ≡ screened (rows_of self.now.table) (W.holds self.now.shelf) place.slot place.block }
    {
        if self.table.is_marked(place) {
            return None;
        }
        fetch(&self.shelf, place)
    }

    // Flips the bits of the mask in one byte of a place; a blind place stays as it is. No plan is used.
    pub fn flip(&mut self, slot: u32, block: u32, index: u32, mask: u32) -> Result<(), Refusal>
        ensures answer { result ≡ flip_answer tt (W.cards self.old.shelf) (W.blocks self.old.shelf) slot block index mask }
        ensures below { W.conduct self.new.shelf ≡ after_all (W.conduct self.old.shelf) (flip_writes (W.cards self.old.shelf) (W.blocks self.old.shelf) (W.holds self.old.shelf) (rows_of self.old.table) slot block index mask) }
        ensures table { self.new.table ≡ self.old.table }
        ensures cards { W.cards self.new.shelf ≡ W.cards self.old.shelf }
        ensures blocks { W.blocks self.new.shelf ≡ W.blocks self.old.shelf }
    {
        let place = self.place(slot, block)?;
        if index > 127 || !(1..=255).contains(&mask) {
            return Err(Refusal::Place);
        }
        if let Some(mut bytes) = self.shown(place) {
            bytes[index as usize] ^= mask as u8;
            store(&mut self.shelf, place, &bytes);
        }
        Ok(())
    }

    // Hands down the first bytes of a write, with the old rest; nothing to a blind place.
    fn tear(&mut self, place: Place, bytes: &[u8; 128], kept: u32)
        requires { inside (W.cards self.old.shelf) (W.blocks self.old.shelf) place.slot place.block ≡ true }
        ensures below { W.conduct self.new.shelf ≡ after_all (W.conduct self.old.shelf) (torn_writes place.slot place.block kept bytes.now (screened (rows_of self.old.table) (W.holds self.old.shelf) place.slot place.block)) }
        ensures table { self.new.table ≡ self.old.table }
        ensures cards { W.cards self.new.shelf ≡ W.cards self.old.shelf }
        ensures blocks { W.blocks self.new.shelf ≡ W.blocks self.old.shelf }
    {
        if let Some(mut torn) = self.shown(place) {
            let count = kept.min(128) as usize;
            torn[..count].copy_from_slice(&bytes[..count]);
            store(&mut self.shelf, place, &torn);
        }
    }

    // Hands down what the plan makes of a write; the write itself where there is no plan.
    fn hand_down(&mut self, place: Place, bytes: &[u8; 128], found: Option<Found>)
        requires { inside (W.cards self.old.shelf) (W.blocks self.old.shelf) place.slot place.block ≡ true }
        ensures below { W.conduct self.new.shelf ≡ after_all (W.conduct self.old.shelf) (writes_by (W.cards self.old.shelf) (W.blocks self.old.shelf) (W.holds self.old.shelf) (rows_of self.old.table) (write_of place.slot place.block bytes.now) found) }
        ensures table { self.new.table ≡ self.old.table }
        ensures cards { W.cards self.new.shelf ≡ W.cards self.old.shelf }
        ensures blocks { W.blocks self.new.shelf ≡ W.blocks self.old.shelf }
    {
        match found.map(|found| found.plan) {
            None => store(&mut self.shelf, place, bytes),
            Some(Plan::Lose | Plan::Spoil) => {}
            Some(Plan::Tear(kept)) => self.tear(place, bytes, kept),
            Some(Plan::Stray(target)) => {
                let _ = self.shelf.write(place.slot, target, bytes);
            }
        }
    }
}

impl<W: WritableShelf> ReadableShelf for FaultLayer<W> {
    ghost cards = { λ s. W.cards s.shelf };

    ghost blocks = { λ s. W.blocks s.shelf };

    ghost holds = { λ s. screened (rows_of s.table) (W.holds s.shelf) };

    ghost sized = { λ s. screened_sized _ _ (rows_of s.table) _ (W.sized s.shelf) };

    fn card_count(&self) -> u32 {
        self.shelf.card_count()
    }

    fn block_count(&self) -> u32 {
        self.shelf.block_count()
    }

    // A marked place is blind; any other is as the shelf below shows it, which also refuses: so layers on layers ask for the
    // numbers of cards and blocks only once.
    #[tactic(auto, unfolding(shelf::specs::Model::read_answer, shelf::specs::Model::read_buffer))]
    fn read(&self, slot: u32, block: u32, buf: &mut [u8]) -> Result<Sight, Refusal> {
        if !self.table.is_marked(Place { slot, block }) {
            return self.shelf.read(slot, block, buf);
        }
        if buf.len() != 128 {
            return Err(Refusal::Length);
        }
        self.place(slot, block)?;
        buf.fill(0);
        Ok(Sight::Blind)
    }
}

impl<W: WritableShelf> WritableShelf for FaultLayer<W> {
    ghost content = { λ s. screened (rows_of s.table) (W.content s.shelf) };

    ghost conduct = { λ s. fault_conduct (W.cards s.shelf) (W.blocks s.shelf) (W.conduct s.shelf) (rows_of s.table) };

    ghost starts = { Prim.search rules };

    ghost same = { Prim.search rules };

    ghost own = { λ s. fault_own _ _ _ (rows_of s.table) (W.own s.shelf) };

    // Beside what every shelf promises: what is handed down, and the rows afterwards. A refused write uses no
    // plan.
    #[tactic(auto, unfolding(shelf::specs::Model::write_answer, shelf::specs::Model::writes_taken, crate::specs::Faults::passed, crate::specs::Faults::rows_after))]
    fn write(&mut self, slot: u32, block: u32, bytes: &[u8]) -> Result<(), Refusal>
        ensures answer { result ≡ write_answer tt (W.cards self.old.shelf) (W.blocks self.old.shelf) slot block (length bytes.now) }
        ensures wrote { fault_conduct (W.cards self.new.shelf) (W.blocks self.new.shelf) (W.conduct self.new.shelf) (rows_of self.new.table) ≡ after_all (fault_conduct (W.cards self.old.shelf) (W.blocks self.old.shelf) (W.conduct self.old.shelf) (rows_of self.old.table)) (writes_taken (W.cards self.old.shelf) (W.blocks self.old.shelf) slot block bytes.now) }
        ensures cards { W.cards self.new.shelf ≡ W.cards self.old.shelf }
        ensures blocks { W.blocks self.new.shelf ≡ W.blocks self.old.shelf }
        ensures before { screened (rows_of self.old.table) (W.content self.old.shelf) ≡ screened (rows_of self.old.table) (W.holds self.old.shelf) }
        ensures then { screened (rows_of self.new.table) (W.content self.new.shelf) ≡ screened (rows_of self.new.table) (W.holds self.new.shelf) }
        ensures below { W.conduct self.new.shelf ≡ after_all (W.conduct self.old.shelf) (passed (W.cards self.old.shelf) (W.blocks self.old.shelf) (W.holds self.old.shelf) (rows_of self.old.table) (write_of slot block bytes.now)) }
        ensures rows { rows_of self.new.table ≡ rows_after (W.cards self.old.shelf) (W.blocks self.old.shelf) (rows_of self.old.table) (write_of slot block bytes.now) }
    {
        let bytes = <&[u8; 128]>::try_from(bytes).map_err(|_| Refusal::Length)?;
        let place = self.place(slot, block)?;
        let found = self.table.plan_for(place);
        self.hand_down(place, bytes, found);
        self.table.pass(found, place);
        Ok(())
    }
}
