// The numbers of cards and of blocks, in the ranges that a shelf can have.
ghost use Rattle.std.specs.Prelude.{◌≡◌, ◌+◌, ◌*◌, ◌<◌, ◌≤◌, true, false, length, IfErr, IfOk, OnOk, MatchResult};
ghost use Rattle.std.specs.Result.{result_err};
ghost use Rattle.shelf.specs.Model.{write_answer};
ghost use Rattle.image.specs.Extents.{shape_fits};
ghost use Rattle.image.specs.Layout.{bytes_fit, flags_fit, open_refusal};

use crate::place::Place;
use block::Refusal;

// The number of cards, and the number of blocks of a card.
#[derive(Clone, Copy)]
pub(crate) struct Extent {
    pub(crate) cards: u32,
    pub(crate) blocks: u32,
    ghost least: { 3 ≤ cards },
    ghost most: { cards ≤ 8 },
    ghost some: { 1 ≤ blocks },
    ghost many: { blocks ≤ 65536 },
}

// Whether every flag is 0 or 1.
fn flags_fit(flags: &[u8]) -> bool
    ensures { result ≡ flags_fit flags.now }
{
    flags.iter().all(|flag| *flag <= 1)
}

impl Extent {
    // So many cards and blocks, if a shelf can have them.
    pub(crate) fn new(cards: u32, blocks: u32) -> Result<Extent, Refusal>
        ensures { MatchResult result (λ e. (shape_fits cards blocks ≡ true) × (e.cards ≡ cards) × (e.blocks ≡ blocks)) (λ r. (shape_fits cards blocks ≡ false) × (r ≡ Refusal.Shape)) }
    {
        if 3 <= cards && cards <= 8 && 1 <= blocks && blocks <= 65536 {
            Ok(Extent { cards, blocks })
        } else {
            Err(Refusal::Shape)
        }
    }

    // The extent of an image of so many cards and blocks with these bytes, or why they are none.
    #[tactic(auto, unfolding(crate::specs::Layout::open_refusal))]
    pub(crate) fn of_image(cards: u32, blocks: u32, bytes: &[u8]) -> Result<Extent, Refusal>
        ensures refusal { result_err result ≡ open_refusal cards blocks bytes.now }
        ensures extent { IfOk result (λ e. (e.cards ≡ cards) × (e.blocks ≡ blocks)) }
        ensures full { IfOk result (λ e. length bytes.now ≡ e.cards * e.blocks * 129) }
    {
        let extent = Extent::new(cards, blocks)?;
        if !extent.fits(bytes) {
            return Err(Refusal::Length);
        }
        Ok(extent)
    }

    // Whether the bytes are an image of this extent: as many as its places take, and every flag 0 or 1.
    fn fits(self, bytes: &[u8]) -> bool
        ensures { result ≡ bytes_fit (self.cards * self.blocks) bytes.now }
    {
        let places = self.places();
        bytes.len() == places * 129 && flags_fit(&bytes[places * 128..])
    }

    // The number of places.
    pub(crate) fn places(self) -> usize
        ensures value { result ≡ self.cards * self.blocks }
        ensures bound { result ≤ 524288 }
    {
        self.cards as usize * self.blocks as usize
    }

    // The place that a read or write of so many bytes names, or why it is refused.
    #[tactic(auto, unfolding(shelf::specs::Model::write_answer))]
    pub(crate) fn place(self, slot: u32, block: u32, len: usize) -> Result<Place, Refusal>
        ensures refusal { IfErr result (λ e. write_answer {T = Unit {0}} tt self.cards self.blocks slot block len ≡ Err e) }
        ensures place { IfOk result (λ p. (p.places ≡ self.cards * self.blocks) × (p.number ≡ slot * self.blocks + block)) }
        ensures slot { OnOk result (slot < self.cards) }
        ensures block { OnOk result (block < self.blocks) }
        ensures whole { OnOk result (len ≡ 128) }
    {
        if len != 128 {
            return Err(Refusal::Length);
        }
        if slot >= self.cards || block >= self.blocks {
            return Err(Refusal::Place);
        }
        Ok(Place {
            places: self.places(),
            number: slot as usize * self.blocks as usize + block as usize,
        })
    }
}
