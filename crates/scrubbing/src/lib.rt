// Scrub and rebuild of an array on a shelf.
#![tactic(auto)]

mod refilling;
mod sweeping;

pub use refilling::rebuild_call;
pub use sweeping::scrub_call;
