// The plain types that code and definitions share.

// A block of a stripe: the parity block, or the data block of an index.
#[derive(Clone, Copy, PartialEq, Eq, Debug)]
pub enum Role {
    Parity,
    Data(u32),
}

// A slot and a block number.
#[derive(Clone, Copy, PartialEq, Eq, Debug)]
pub struct Place {
    pub slot: u32,
    pub block: u32,
}

// A stripe and a data index: where an address lies.
#[derive(Clone, Copy, PartialEq, Eq, Debug)]
pub struct Position {
    pub stripe: u32,
    pub index: u32,
}

// What is seen of a place: its bytes, or nothing where it is blind.
pub type Cell = Option<[u8; 128]>;

// Why a block judged alone is unfit.
#[derive(Clone, Copy, PartialEq, Eq, Debug)]
pub enum Defect {
    // Nothing is seen of it.
    Blind,
    // Its checksum differs.
    Broken,
    // Its kind, mark, slot, number of cards, block number, tag or an unused version is not what its place requires.
    Foreign,
}

// A block judged alone: its bytes where it is readable.
pub type Verdict = Result<[u8; 128], Defect>;

// What a block is to keep: a payload, and the owner that it has it for.
#[derive(Clone, Copy)]
pub struct Record {
    pub payload: [u8; 80],
    pub owner: u32,
}

// The fields of a block, but for its checksum.
#[derive(Clone, Copy)]
pub struct Fields {
    pub payload: [u8; 80],
    pub kind: u8,
    pub mark: u8,
    pub slot: u8,
    pub cards: u8,
    pub block: u32,
    pub owner: u32,
    pub versions: [u32; 7],
    pub tag: u32,
}
