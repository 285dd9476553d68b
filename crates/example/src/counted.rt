// A layer over any writable shelf: it passes every call on as it is, and counts the writes that are accepted.
ghost use Rattle.std.specs.Prelude.{◌≡◌, length};
ghost use Rattle.shelf.specs.Model.{after_all, write_answer, writes_taken};
ghost use Rattle.example.specs.Counts.{one_more, count_after};
ghost use Rattle.std.proofs.Common.{rules};

use block::Refusal;
use shelf::{ReadableShelf, Sight, WritableShelf};

// A shelf, and the number of writes that it accepted, which stops at the greatest u64.
#[derive(Drop)]
pub struct Counted<W> {
    shelf: W,
    count: u64,
}

// Adds one, up to the greatest u64.
fn add_one(count: &mut u64)
    ensures { count.new ≡ one_more count.old }
{
    *count = count.saturating_add(1);
}

impl<W: WritableShelf> Counted<W> {
    // A layer that has counted nothing.
    pub fn over(shelf: W) -> Counted<W>
        ensures shelf { result.shelf ≡ shelf }
        ensures count { result.count ≡ 0 }
    {
        Counted { shelf, count: 0 }
    }

    // The number of accepted writes.
    pub fn count(&self) -> u64
        ensures { result ≡ self.now.count }
    {
        self.count
    }

    // The shelf under the layer.
    pub fn into_inner(self) -> W
        ensures { result ≡ self.shelf }
    {
        let Counted { shelf, count: _ } = self;
        shelf
    }
}

impl<W: WritableShelf> ReadableShelf for Counted<W> {
    ghost cards = { λ s. W.cards s.shelf };

    ghost blocks = { λ s. W.blocks s.shelf };

    ghost holds = { λ s. W.holds s.shelf };

    ghost sized = { λ s. W.sized s.shelf };

    fn card_count(&self) -> u32 {
        self.shelf.card_count()
    }

    fn block_count(&self) -> u32 {
        self.shelf.block_count()
    }

    fn read(&self, slot: u32, block: u32, buf: &mut [u8]) -> Result<Sight, Refusal> {
        self.shelf.read(slot, block, buf)
    }
}

impl<W: WritableShelf> WritableShelf for Counted<W> {
    ghost content = { λ s. W.content s.shelf };

    ghost conduct = { λ s. W.conduct s.shelf };

    ghost starts = { Prim.search rules };

    ghost same = { Prim.search rules };

    ghost own = { Prim.search rules };

    // The last clause is this layer's own: an accepted write is counted, a refused one is not. A method that promises more than
    // its trait repeats the trait's clauses, here the first six.
    fn write(&mut self, slot: u32, block: u32, bytes: &[u8]) -> Result<(), Refusal>
        ensures answer { result ≡ write_answer tt (W.cards self.old.shelf) (W.blocks self.old.shelf) slot block (length bytes.now) }
        ensures wrote { W.conduct self.new.shelf ≡ after_all (W.conduct self.old.shelf) (writes_taken (W.cards self.old.shelf) (W.blocks self.old.shelf) slot block bytes.now) }
        ensures cards { W.cards self.new.shelf ≡ W.cards self.old.shelf }
        ensures blocks { W.blocks self.new.shelf ≡ W.blocks self.old.shelf }
        ensures before { W.content self.old.shelf ≡ W.holds self.old.shelf }
        ensures then { W.content self.new.shelf ≡ W.holds self.new.shelf }
        ensures counted { self.new.count ≡ count_after result self.old.count }
    {
        self.shelf.write(slot, block, bytes)?;
        add_one(&mut self.count);
        Ok(())
    }
}
