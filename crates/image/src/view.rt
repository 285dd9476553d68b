// The view as a shelf.
ghost use Rattle.image.specs.Layout.{content_of};
ghost use Rattle.image.specs.Sized.{content_sized};

use crate::shapes::ImageView;
use block::Refusal;
use shelf::{ReadableShelf, Sight};

impl<'a> ReadableShelf for ImageView<'a> {
    ghost cards = { λ s. s.extent.cards };

    ghost blocks = { λ s. s.extent.blocks };

    ghost holds = { λ s. content_of s.extent.cards s.extent.blocks s.bytes.now };

    ghost sized = { λ s. content_sized s.extent.cards s.extent.blocks s.bytes.now };

    fn card_count(&self) -> u32 {
        self.extent.cards
    }

    fn block_count(&self) -> u32 {
        self.extent.blocks
    }

    #[tactic(auto, unfolding(shelf::specs::Model::read_answer, shelf::specs::Model::read_buffer, shelf::specs::Model::write_answer, crate::specs::Layout::content_of))]
    fn read(&self, slot: u32, block: u32, buf: &mut [u8]) -> Result<Sight, Refusal> {
        let place = self.extent.place(slot, block, buf.len())?;
        Ok(place.show(self.bytes, buf))
    }
}
