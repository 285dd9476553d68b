// The plain types of a stripe that code and definitions share.
use block::{Role, Verdict};

// A slot's card is in, out, or being filled: rebuilt up to a block, which is not yet rebuilt.
#[derive(Clone, Copy, PartialEq, Eq, Debug)]
pub enum SlotState {
    In,
    Out,
    Filling(u32),
}

// The blocks of a stripe, each judged alone; indices that the stripe has not count as blind.
#[derive(Clone, Copy)]
pub struct Stripe {
    pub parity: Verdict,
    pub data: [Verdict; 7],
}

// What the number of bad blocks decides.
#[derive(Clone, Copy, PartialEq, Eq, Debug)]
pub enum Decision {
    Clean,
    Only(Role),
    Lost,
}

// How a write makes the new parity.
#[derive(Clone, Copy, PartialEq, Eq, Debug)]
pub enum Plan {
    // It cannot be made.
    Lost,
    // Old parity XOR old block XOR new block.
    BySum,
    // The XOR of all data with the new block.
    ByAll,
}

// Why a block is bad. Behind: it is readable, and its version shows that it missed a write.
#[derive(Clone, Copy, PartialEq, Eq, Debug)]
pub enum Cause {
    Blind,
    Broken,
    Foreign,
    Behind,
}

// The layer that shows the cause.
#[derive(Clone, Copy, PartialEq, Eq, Debug)]
pub enum Layer {
    Card,
    Checksum,
    Identity,
    Version,
}

// What was found at a place.
#[derive(Clone, Copy, PartialEq, Eq, Debug, Default)]
pub enum Condition {
    #[default]
    NotLooked,
    Readable,
    Bad(Cause),
}

// What was found at the place of one slot. The lead of a data block is its version minus the one that parity mirrors;
// the lead shown for parity is the greatest.
#[derive(Clone, Copy, PartialEq, Eq, Debug, Default)]
pub struct Finding {
    pub slot: u32,
    pub block: u32,
    pub condition: Condition,
    pub layer: Option<Layer>,
    pub lead: Option<i64>,
    pub mended: bool,
}
