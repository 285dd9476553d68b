// Faults on an array whose shelf is a fault layer: each call is the layer's.
ghost use Rattle.std.specs.Prelude.{◌≡◌};
ghost use Rattle.shelf.specs.Model.{after_all};
ghost use Rattle.faults.specs.Faults.{lay_answer, lay_rows, blind_answer, blind_rows, flip_answer, flip_writes};
ghost use Rattle.faults.specs.Tables.{rows_of};

use crate::array::Array;
use block::Refusal;
use checksum::Checksum;
use faults::{FaultLayer, Plan};
use shelf::{ReadableShelf, WritableShelf};

impl<W: WritableShelf, C: Checksum> Array<FaultLayer<W>, C> {
    // Plans a fault for a write to the place, after the plans that are there. What is out of range is
    // refused first, then a full table.
    pub fn lay(&mut self, slot: u32, block: u32, plan: Plan) -> Result<(), Refusal>
        ensures answer { result ≡ lay_answer tt (W.cards self.old.cards.shelf.shelf) (W.blocks self.old.cards.shelf.shelf) (rows_of self.old.cards.shelf.table) slot block plan }
        ensures rows { rows_of self.new.cards.shelf.table ≡ lay_rows (W.cards self.old.cards.shelf.shelf) (W.blocks self.old.cards.shelf.shelf) (rows_of self.old.cards.shelf.table) slot block plan }
        ensures below { self.new.cards.shelf.shelf ≡ self.old.cards.shelf.shelf }
        ensures frame { self.new.cards.frame ≡ self.old.cards.frame }
        ensures states { self.new.cards.states ≡ self.old.cards.states }
        ensures cursor { self.new.cursor ≡ self.old.cursor }
        ensures tally { self.new.tally ≡ self.old.tally }
    {
        self.cards.shelf.lay(slot, block, plan)
    }

    // Marks the place: it is blind until a write is passed to it. A second mark takes no row.
    pub fn blind(&mut self, slot: u32, block: u32) -> Result<(), Refusal>
        ensures answer { result ≡ blind_answer tt (W.cards self.old.cards.shelf.shelf) (W.blocks self.old.cards.shelf.shelf) (rows_of self.old.cards.shelf.table) slot block }
        ensures rows { rows_of self.new.cards.shelf.table ≡ blind_rows (W.cards self.old.cards.shelf.shelf) (W.blocks self.old.cards.shelf.shelf) (rows_of self.old.cards.shelf.table) slot block }
        ensures below { self.new.cards.shelf.shelf ≡ self.old.cards.shelf.shelf }
        ensures frame { self.new.cards.frame ≡ self.old.cards.frame }
        ensures states { self.new.cards.states ≡ self.old.cards.states }
        ensures cursor { self.new.cursor ≡ self.old.cursor }
        ensures tally { self.new.tally ≡ self.old.tally }
    {
        self.cards.shelf.blind(slot, block)
    }

    // Flips the bits of the mask in one byte of a place; a blind place stays as it is. No plan is used.
    pub fn flip(&mut self, slot: u32, block: u32, index: u32, mask: u32) -> Result<(), Refusal>
        ensures answer { result ≡ flip_answer tt (W.cards self.old.cards.shelf.shelf) (W.blocks self.old.cards.shelf.shelf) slot block index mask }
        ensures below { W.conduct self.new.cards.shelf.shelf ≡ after_all (W.conduct self.old.cards.shelf.shelf) (flip_writes (W.cards self.old.cards.shelf.shelf) (W.blocks self.old.cards.shelf.shelf) (W.holds self.old.cards.shelf.shelf) (rows_of self.old.cards.shelf.table) slot block index mask) }
        ensures table { self.new.cards.shelf.table ≡ self.old.cards.shelf.table }
        ensures frame { self.new.cards.frame ≡ self.old.cards.frame }
        ensures states { self.new.cards.states ≡ self.old.cards.states }
        ensures cursor { self.new.cursor ≡ self.old.cursor }
        ensures tally { self.new.tally ≡ self.old.tally }
    {
        self.cards.shelf.flip(slot, block, index, mask)
    }
}
