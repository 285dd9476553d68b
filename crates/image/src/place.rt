// What a place of an image holds.
ghost use Rattle.std.specs.Prelude.{◌≡◌, ◌*◌, ◌<◌, ◌≤◌, length};
ghost use Rattle.shelf.specs.Model.{sight_of, shown_of};
ghost use Rattle.image.specs.Layout.{cell_at, put_at};

use shelf::Sight;

// A place, by its number among the places of its image, slot by slot.
#[derive(Clone, Copy)]
pub(crate) struct Place {
    pub(crate) places: usize,
    pub(crate) number: usize,
    ghost few: { places ≤ 524288 },
    ghost within: { number < places },
}

impl Place {
    // What it holds, into the buffer; zeros where it is blind.
    #[tactic(auto, unfolding(crate::specs::Layout::cell_at))]
    pub(crate) fn show(self, image: &[u8], buf: &mut [u8]) -> Sight
        requires full { length image.now ≡ self.places * 129 }
        requires len { length buf.old ≡ 128 }
        ensures answer { result ≡ sight_of (cell_at self.places image.now self.number) }
        ensures buffer { buf.new ≡ shown_of (cell_at self.places image.now self.number) }
    {
        if image[self.places * 128 + self.number] == 0 {
            let at = self.number * 128;
            buf.copy_from_slice(&image[at..at + 128]);
            Sight::Present
        } else {
            buf.fill(0);
            Sight::Blind
        }
    }

    // Puts a block to it. It is readable then.
    #[tactic(auto, using(std::proofs::lemmas::Slice::overwrites), unfolding(crate::specs::Layout::put_at))]
    pub(crate) fn put(self, image: &mut [u8], bytes: &[u8])
        requires full { length image.old ≡ self.places * 129 }
        requires len { length bytes.now ≡ 128 }
        ensures { image.new ≡ put_at self.places image.old self.number bytes.now }
    {
        let at = self.number * 128;
        image[at..at + 128].copy_from_slice(bytes);
        image[self.places * 128 + self.number] = 0;
    }
}
