// The blocks that mend a stripe, and those that a write makes.
#![tactic(auto)]

mod mend;
mod renew;
mod rows;

pub use mend::{mended_block, others_owner};
pub use renew::{base_version, new_data, new_parity, plan_of};
