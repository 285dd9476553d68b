ghost use Rattle.std.specs.Prelude.{◌≡◌, ◌<◌};
ghost use Rattle.checksum.specs.Fletcher.{plus, sum_from, fletcher};
ghost use Rattle.checksum.specs.Rows.{split};
ghost use Rattle.checksum.specs.FletcherLaws.{fits, tells_apart};
ghost use Rattle.std.proofs.Common.{rules};

use crate::sum::Checksum;

// Fletcher's checksum of 32 bits.
pub struct Fletcher;

// The two running sums, each below 65,535.
#[derive(Clone, Copy)]
pub struct Sums {
    a: u16,
    b: u16,
    ghost first: { a < 65535 },
    ghost second: { b < 65535 },
}

// The sum of two numbers, modulo 65,535.
fn add(m: u16, n: u16) -> u16
    ensures { result ≡ plus m n }
{
    ((m as u32 + n as u32) % 65535) as u16
}

// The running sums after one more 16-bit word.
fn add_half(sums: Sums, half: u16) -> Sums
    ensures first { result.a ≡ plus sums.a half }
    ensures second { result.b ≡ plus sums.b (plus sums.a half) }
{
    let a = add(sums.a, half);
    let b = add(sums.b, a);
    Sums { a, b }
}

impl Checksum for Fletcher {
    const MARK: u8 = 1;

    ghost MARK = { 1 };

    type State = Sums;

    ghost after = { λ s ws. sum_from s.a s.b (split ws) };

    ghost meaning = { fletcher };

    ghost byte = { Prim.search rules };

    ghost narrow = { λ bs r. fits bs };

    ghost tells = { tells_apart };

    fn start() -> Sums {
        Sums { a: 0, b: 0 }
    }

    fn feed(state: Sums, word: u32) -> Sums {
        let first = add_half(state, (word / 65536) as u16);
        add_half(first, (word % 65536) as u16)
    }

    fn finish(state: Sums) -> u32 {
        state.b as u32 * 65536 + state.a as u32
    }
}
