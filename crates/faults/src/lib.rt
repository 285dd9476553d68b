// A fault layer: a shelf over another one, on which writes can be made to fail.
#![tactic(auto)]

mod layer;
mod rows;
mod table;

pub use layer::FaultLayer;
pub use rows::Plan;
