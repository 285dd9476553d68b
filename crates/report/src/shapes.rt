// What a report says of a stripe, of a card and of a whole shelf.
use stripe::Finding;

// What was found of one stripe of an array on so many cards, with all slots in.
#[derive(Clone, Copy)]
pub struct StripeReport {
    pub stripe: u32,
    pub cards: u32,
    pub parity: u32,
    pub mask: u8,
    pub findings: [Finding; 8],
}

// How many blocks of a card were found in each condition.
#[derive(Clone, Copy, Default)]
pub struct CardTotals {
    pub readable: u32,
    pub blind: u32,
    pub broken: u32,
    pub foreign: u32,
    pub behind: u32,
}

// How many stripes are clean, have one bad block, and have more.
#[derive(Clone, Copy, Default)]
pub struct StripeTotals {
    pub clean: u32,
    pub single: u32,
    pub lost: u32,
}

// What a repairer should do next with a card.
#[derive(Clone, Copy)]
pub enum Advice {
    // No block of it is bad.
    Leave,
    // Blocks of another place or array: the wrong card may be in the slot.
    CheckIdentity,
    // Blocks that cannot be read.
    CleanContacts,
    // Blocks whose bytes have changed.
    WatchForDecay,
    // Blocks that kept old content: the card said that it had written.
    ScrubAndWatch,
}
