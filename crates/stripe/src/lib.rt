// A stripe: what is seen of its places, and what follows.
#![tactic(auto)]

mod cards;
mod causes;
mod looks;
mod masks;
mod shapes;
mod surveys;

pub use cards::{CardSet, CardView};
pub use looks::{all_slots_in, frame_of, takes};
pub use masks::{lead, lead_at};
pub use shapes::{Cause, Condition, Decision, Finding, Layer, Plan, SlotState, Stripe};
pub use surveys::survey;
