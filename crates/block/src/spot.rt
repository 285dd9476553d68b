// The blocks of a stripe of an array.
ghost use Rattle.std.specs.Prelude.{◌≡◌, ℕ, ◌<◌};
ghost use Rattle.block.specs.declared.shapes.Role.TheVariants.{Data};

use crate::frame::Frame;
use crate::shapes::Role;

// A block of a stripe: parity, or a data block that the stripe has.
#[derive(Clone, Copy)]
pub struct Spot {
    pub frame: Frame,
    pub stripe: u32,
    pub role: Role,
    ghost placed: { (j : ℕ) → role ≡ Data j → j < frame.width },
}

// A data block of a stripe, by its index.
#[derive(Clone, Copy)]
pub struct DataSpot {
    pub frame: Frame,
    pub stripe: u32,
    pub index: u32,
    ghost placed: { index < frame.width },
}
