// What a write makes before it hands anything down.
use block::Refusal;

// The two blocks of a write.
#[derive(Clone, Copy)]
pub struct Pair {
    pub block: [u8; 128],
    pub parity: [u8; 128],
}

// The number of places looked at, and the two blocks or why there are none.
#[derive(Clone, Copy)]
pub struct Prepared {
    pub looks: u32,
    pub pair: Result<Pair, Refusal>,
}
