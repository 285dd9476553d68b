// The states of the slots, and the events that turn them.
#![tactic(auto)]

mod slots;

pub use slots::turn_slot;
