// What is found at each place of a stripe, for the caller of a read, a write or a scrub.
#![tactic(auto)]

mod findings;

pub use findings::{findings_all, findings_quick};
