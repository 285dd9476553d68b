// A shelf in memory: an image that owns its bytes, and a view over lent bytes.
#![tactic(auto)]

mod extent;
mod failures;
mod image;
mod opening;
mod place;
mod shapes;
mod view;

pub use failures::MakeError;
pub use shapes::{Image, ImageView};
