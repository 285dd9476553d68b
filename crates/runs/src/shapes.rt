// The arguments and answers of the calls.
use block::Refusal;

// How a write makes the new parity: from old parity and the old block, or from all data.
#[derive(Clone, Copy, PartialEq, Eq, Debug)]
pub enum Way {
    Subtractive,
    Additive,
}

// Which of a read's two buffers holds the answer.
#[derive(Clone, Copy, PartialEq, Eq, Debug)]
pub enum Source {
    Found,
    Rebuilt,
}

// The mending switch, a caller's record.
#[derive(Clone, Copy, PartialEq, Eq, Debug)]
pub struct Switch {
    pub mending: bool,
}

// An accepted read: where its block came from, and the number of places looked at.
#[derive(Clone, Copy, PartialEq, Eq, Debug)]
pub struct ReadAnswer {
    pub source: Source,
    pub looks: u32,
}

// An accepted write: the number of places looked at.
#[derive(Clone, Copy, PartialEq, Eq, Debug)]
pub struct WriteAnswer {
    pub looks: u32,
}

// What a scrub did at one stripe. Short: the block to mend takes no writes.
#[derive(Clone, Copy, PartialEq, Eq, Debug)]
pub enum Swept {
    Clean,
    Mended,
    Short,
    Lost,
}

// What a scrub answers: stripes looked at, and of these the clean, mended, short and lost ones.
#[derive(Clone, Copy, PartialEq, Eq, Debug, Default)]
pub struct ScrubCounts {
    pub looked: u32,
    pub clean: u32,
    pub mended: u32,
    pub short: u32,
    pub lost: u32,
}

// What a rebuild answers: stripes moved on, and of these the mended and lost ones.
#[derive(Clone, Copy, PartialEq, Eq, Debug, Default)]
pub struct RebuildCounts {
    pub moved: u32,
    pub mended: u32,
    pub lost: u32,
}

// What a look answers: the number of blocks read, and the refusal that stopped it, if any.
#[derive(Clone, Copy, PartialEq, Eq, Debug)]
pub struct LookAnswer {
    pub read: u32,
    pub stopped: Option<Refusal>,
}

// What happens to a slot.
#[derive(Clone, Copy, PartialEq, Eq, Debug)]
pub enum Event {
    Pull,
    Fit,
    Finish,
    GiveUp,
}

// The write that mends a stripe's only bad block.
#[derive(Clone, Copy, PartialEq, Eq, Debug)]
pub struct Patch {
    pub slot: u32,
    pub bytes: [u8; 128],
}

// The block of an address as a read obtains it.
#[derive(Clone, Copy, PartialEq, Eq, Debug)]
pub enum Obtained {
    Lost,
    Found([u8; 128]),
    Rebuilt([u8; 128]),
}

// What a read makes of a stripe.
#[derive(Clone, Copy, PartialEq, Eq, Debug)]
pub struct Gathered {
    pub obtained: Obtained,
    pub looks: u32,
    pub patch: Option<Patch>,
}
