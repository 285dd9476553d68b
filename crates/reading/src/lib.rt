// Reads of an array.
#![tactic(auto)]

mod gathering;
mod looking;
mod reading;
mod shapes;
mod showing;

pub use gathering::gather;
pub use looking::look_call;
pub use patches::quick;
pub use reading::read_call;
pub use showing::show;
