ghost use Rattle.std.specs.Prelude.{◌≡◌, fold};
ghost use Rattle.checksum.specs.Turning.{turn_in, turning};
ghost use Rattle.checksum.specs.TurningLaws.{fits, tells_apart};
ghost use Rattle.std.proofs.Common.{rules};

use crate::sum::Checksum;

// The turning checksum: each word is combined with what is kept, rotated left by 5 bits.
pub struct Turning;

impl Checksum for Turning {
    const MARK: u8 = 2;

    ghost MARK = { 2 };

    type State = u32;

    ghost after = { fold turn_in };

    ghost meaning = { turning };

    ghost byte = { Prim.search rules };

    ghost narrow = { fits };

    ghost tells = { tells_apart };

    fn start() -> u32 {
        0
    }

    fn feed(state: u32, word: u32) -> u32 {
        state.rotate_left(5) ^ word
    }

    fn finish(state: u32) -> u32 {
        state
    }
}
