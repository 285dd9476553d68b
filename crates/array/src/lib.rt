// The array: cards on a shelf under one tag, and its calls.
#![tactic(auto)]

mod array;
mod calls;
mod damage;
mod events;
mod formats;
mod guard;
mod opening;

pub use array::Array;
pub use events::RebuildJob;
pub use reading::show;
