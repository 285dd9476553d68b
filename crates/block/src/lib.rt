// Places, the 128 bytes of a block, and the judging of a block alone.
#![tactic(auto)]

mod codec;
mod frame;
mod judging;
mod places;
mod refusal;
mod shapes;
mod spot;

pub use codec::{decode, encode, owner, seal, version};
pub use frame::Frame;
pub use refusal::{HandedBack, Refusal};
pub use shapes::{Cell, Defect, Fields, Place, Position, Record, Role, Verdict};
pub use spot::{DataSpot, Spot};
