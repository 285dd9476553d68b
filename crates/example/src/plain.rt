ghost use Rattle.std.specs.Prelude.{◌≡◌, fold, bit_xor};
ghost use Rattle.example.specs.Plain.{plain};
ghost use Rattle.example.specs.PlainLaws.{fits, tells_apart};
ghost use Rattle.std.proofs.Common.{rules};

use checksum::Checksum;

// The plain sum: the exclusive or of the 31 words.
pub struct PlainSum;

impl Checksum for PlainSum {
    const MARK: u8 = 3;

    ghost MARK = { 3 };

    type State = u32;

    ghost after = { fold bit_xor };

    ghost meaning = { plain };

    ghost byte = { Prim.search rules };

    ghost narrow = { fits };

    ghost tells = { tells_apart };

    fn start() -> u32 {
        0
    }

    fn feed(state: u32, word: u32) -> u32 {
        state ^ word
    }

    fn finish(state: u32) -> u32 {
        state
    }
}
