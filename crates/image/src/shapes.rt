// The image shelves.
ghost use Rattle.std.specs.Prelude.{◌≡◌, ◌*◌, length, vec_len};

use crate::extent::Extent;

// A shelf over lent bytes, to read only.
#[derive(Clone, Copy)]
pub struct ImageView<'a> {
    pub(crate) extent: Extent,
    pub(crate) bytes: &'a [u8],
    ghost full: { length bytes.now ≡ extent.cards * extent.blocks * 129 },
}

// A shelf that owns its bytes.
#[derive(Drop)]
pub struct Image {
    pub(crate) extent: Extent,
    pub(crate) bytes: Vec<u8>,
    ghost full: { vec_len bytes ≡ extent.cards * extent.blocks * 129 },
}
