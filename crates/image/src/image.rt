// The image as a shelf.
ghost use Rattle.std.specs.Prelude.{◌≡◌};
ghost use Rattle.std.proofs.Common.{sym, ◌∙◌, rules, arith};
ghost use Rattle.image.specs.Layout.{content_of, image_conduct};
ghost use Rattle.image.specs.Sized.{content_sized};
ghost use Rattle.image.specs.Puts.{image_own};

use crate::shapes::Image;
use block::Refusal;
use shelf::{ReadableShelf, Sight, WritableShelf};

impl ReadableShelf for Image {
    ghost cards = { λ s. s.extent.cards };

    ghost blocks = { λ s. s.extent.blocks };

    ghost holds = { λ s. content_of s.extent.cards s.extent.blocks s.bytes.items };

    ghost sized = { λ s. content_sized s.extent.cards s.extent.blocks s.bytes.items };

    fn card_count(&self) -> u32 {
        self.extent.cards
    }

    fn block_count(&self) -> u32 {
        self.extent.blocks
    }

    fn read(&self, slot: u32, block: u32, buf: &mut [u8]) -> Result<Sight, Refusal> {
        self.view().read(slot, block, buf)
    }
}

impl WritableShelf for Image {
    ghost content = { λ s. content_of s.extent.cards s.extent.blocks s.bytes.items };

    ghost conduct = { λ s. image_conduct s.extent.cards s.extent.blocks s.bytes.items };

    ghost starts = { first_of (Prim.search rules, Prim.grind (arith, Self.row.coded.inj)) };

    ghost same = { first_of (Prim.search rules, Prim.grind (arith, Self.row.coded.inj)) };

    ghost own = { λ s. image_own s.extent.cards s.extent.blocks _ (sym s.bytes.ok.0 ∙ s.full) };

    // The place holds the bytes and is readable.
    #[tactic(auto, using(crate::proofs::Writes::wrote), unfolding(shelf::specs::Model::write_answer, shelf::specs::Model::writes_taken))]
    fn write(&mut self, slot: u32, block: u32, bytes: &[u8]) -> Result<(), Refusal> {
        let place = self.extent.place(slot, block, bytes.len())?;
        place.put(self.bytes.as_mut_slice(), bytes);
        Ok(())
    }
}
