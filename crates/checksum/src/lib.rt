// Checksums of the first 124 bytes of a block: what a checksum is, and two of them.
#![tactic(auto)]

mod fletcher;
mod sum;
mod turning;
mod words;

pub use fletcher::{Fletcher, Sums};
pub use sum::{Checksum, has_sum};
pub use turning::Turning;
pub use words::be32;
