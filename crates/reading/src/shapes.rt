// What a read holds on its way.
use block::Refusal;
use runs::{Gathered, ReadAnswer};
use stripe::Stripe;

// What a read makes of a stripe, and the whole stripe if all places were looked at.
#[derive(Clone, Copy)]
pub struct Sighted {
    pub gathered: Gathered,
    pub stripe: Option<Stripe>,
}

// What a read gives, once the owner is known.
#[derive(Clone, Copy)]
pub struct Settled {
    pub answer: Result<ReadAnswer, Refusal>,
    pub found: [u8; 128],
    pub rebuilt: [u8; 128],
    pub tally: u32,
}
