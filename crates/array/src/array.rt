// The array itself.
ghost use Rattle.std.specs.Prelude.{ℕ};

use shelf::{ReadableShelf, WritableShelf};
use std::marker::PhantomData;
use stripe::CardSet;

// The cards of an array, the stripe at which the next scrub starts, and the number of reads given rebuilt.
pub struct Array<W: WritableShelf, C> {
    pub(crate) cards: CardSet<W>,
    pub(crate) cursor: u32,
    pub(crate) tally: u32,
    pub(crate) sums: PhantomData<C>,
}
