// The write that mends a stripe's only bad block, and when two of its blocks are enough.
#![tactic(auto)]

mod pair;
mod patching;

pub use pair::quick;
pub use patching::{apply_patch, patch_by, patch_of};
