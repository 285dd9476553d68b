// Why a call was refused.
ghost use Rattle.std.specs.Prelude.{◌≡◌};
ghost use Rattle.block.specs.Refusals.{number_of};

use std::fmt;

#[derive(Clone, Copy, PartialEq, Eq, Debug)]
pub enum Refusal {
    // A buffer, payload or image has the wrong length, or an image flag is above 1.
    Length = 1,
    // The number of cards, the number of blocks or the tag is out of range.
    Shape = 2,
    // An address or the end of a stretch is beyond the array.
    Address = 3,
    // A slot, block, byte index, byte mask, tear length, stray target or stripe count is out of range.
    Place = 4,
    // A write names owner 0.
    NoOwner = 5,
    // The slot's state does not allow the event.
    SlotState = 6,
    // The fault table is full.
    TableFull = 7,
    // The block is lost.
    Lost = 8,
    // A read or look meets another stored owner.
    OtherOwner = 9,
    // A write would raise the greatest version.
    VersionLimit = 10,
}

impl Refusal {
    // The number by which the refusal is known.
    pub fn number(self) -> u8
        ensures { result ≡ number_of self }
    {
        self as u8
    }
}

// Printed as its number.
impl fmt::Display for Refusal {
    fn fmt<W: fmt::Write>(&self, f: &mut fmt::Formatter<W>) -> fmt::Result {
        let number = self.number();
        write!(f, "{number}")
    }
}

// A refusal, and what the refused call was given, handed back.
#[derive(Debug, Drop)]
pub struct HandedBack<T> {
    pub refusal: Refusal,
    pub value: T,
}
