// The write of an array.
#![tactic(auto)]

mod preparing;
mod shapes;
mod writes;

pub use writes::write_call;
