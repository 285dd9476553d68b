// Opens and makes images, and takes them apart.
ghost use Rattle.std.specs.Prelude.{◌≡◌, ◌*◌, replicate, IfOk, vec_len};
ghost use Rattle.std.specs.Option.{option_map};
ghost use Rattle.std.specs.Result.{result_err};
ghost use Rattle.shelf.specs.Model.{Faithful};
ghost use Rattle.image.specs.Layout.{content_of, open_refusal};
ghost use Rattle.image.specs.Making.{handed_back, make_refusal, refusal_of};
ghost use Rattle.image.specs.contracts.image.ImageReadableShelf.TheImpl.{ghosts as readable};
ghost use Rattle.image.specs.contracts.image.ImageWritableShelf.TheImpl.{ghosts as writable};
ghost use Rattle.image.specs.contracts.view.ImageViewReadableShelf.TheImpl.{ghosts as viewed};

use crate::extent::Extent;
use crate::failures::MakeError;
use crate::shapes::{Image, ImageView};
use block::{HandedBack, Refusal};
use std::alloc::Global;

impl<'a> ImageView<'a> {
    // The shelf of so many cards and blocks over these bytes, or why they are none.
    pub fn open(cards: u32, blocks: u32, bytes: &'a [u8]) -> Result<ImageView<'a>, Refusal>
        ensures refusal { result_err result ≡ open_refusal cards blocks bytes.now }
        ensures shape { IfOk result (λ v. (viewed.cards v ≡ cards) × (viewed.blocks v ≡ blocks)) }
        ensures holds { IfOk result (λ v. viewed.holds v ≡ content_of cards blocks bytes.now) }
        ensures bytes { IfOk result (λ v. v.bytes.now ≡ bytes.now) }
    {
        let extent = Extent::of_image(cards, blocks, bytes)?;
        Ok(ImageView { extent, bytes })
    }
}

impl Image {
    // The shelf of so many cards and blocks with these bytes, which does every write as told. Bytes that are none are handed back.
    pub fn open(cards: u32, blocks: u32, bytes: Vec<u8>) -> Result<Image, HandedBack<Vec<u8>>>
        ensures refusal { result_err result ≡ option_map (handed_back bytes) (open_refusal cards blocks bytes.items) }
        ensures shape { IfOk result (λ i. (readable.cards i ≡ cards) × (readable.blocks i ≡ blocks)) }
        ensures holds { IfOk result (λ i. readable.holds i ≡ content_of cards blocks bytes.items) }
        ensures bytes { IfOk result (λ i. i.bytes ≡ bytes) }
        ensures told { IfOk result (λ i. Faithful (readable.cards i) (readable.blocks i) (writable.conduct i)) }
    {
        match Extent::of_image(cards, blocks, bytes.as_slice()) {
            Ok(extent) => Ok(Image { extent, bytes }),
            Err(refusal) => Err(HandedBack {
                refusal,
                value: bytes,
            }),
        }
    }

    // A shelf of so many cards and blocks with all bytes 0 and no place blind, which does every write as told.
    pub fn zero(heap: Global, cards: u32, blocks: u32) -> Result<Image, MakeError>
        ensures refusal { refusal_of result ≡ make_refusal cards blocks }
        ensures shape { IfOk result (λ i. (readable.cards i ≡ cards) × (readable.blocks i ≡ blocks)) }
        ensures holds { IfOk result (λ i. readable.holds i ≡ content_of cards blocks (replicate (cards * blocks * 129) 0)) }
        ensures bytes { IfOk result (λ i. i.bytes.items ≡ replicate (cards * blocks * 129) 0) }
        ensures told { IfOk result (λ i. Faithful (readable.cards i) (readable.blocks i) (writable.conduct i)) }
    {
        let extent = Extent::new(cards, blocks)?;
        let bytes = vec![in heap; 0u8; extent.places() * 129]?;
        Ok(Image { extent, bytes })
    }

    // The bytes of the image.
    pub fn into_bytes(self) -> Vec<u8>
        ensures { result ≡ self.bytes }
    {
        self.bytes
    }

    // The image to read only.
    pub fn view(&self) -> ImageView<'_>
        ensures shape { (viewed.cards result ≡ readable.cards self.now) × (viewed.blocks result ≡ readable.blocks self.now) }
        ensures holds { viewed.holds result ≡ readable.holds self.now }
        ensures bytes { result.bytes.now ≡ self.now.bytes.items }
    {
        ImageView {
            extent: self.extent,
            bytes: self.bytes.as_slice(),
        }
    }
}
