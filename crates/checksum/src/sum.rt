ghost use Rattle.std.specs.Prelude.{◌≡◌, ℕ, ◌^◌, ◌<◌, false, List, [], ◌∷◌, take, ◌==◌, ◌≢◌};
ghost use Rattle.checksum.specs.Rows.{Row, OneApart, words};

use crate::words::be32;

// A checksum of the first 124 bytes of a block, which takes them as 31 words of 32 bits.
pub trait Checksum {
    // The byte that stands for it in a block.
    const MARK: u8;

    // The same byte, for clauses.
    ghost MARK: { ℕ };

    // What it keeps from word to word.
    type State;

    // The sum that a state comes to once these words are fed.
    ghost after: { Self.State → List ℕ → ℕ };

    // The sum of a row of 124 bytes.
    ghost meaning: { List ℕ → ℕ };

    // The state before the first word: the words of a row bring it to the row's sum.
    fn start() -> Self::State
        ensures { (bs : List ℕ) → Row bs → after result (words bs) ≡ meaning bs };

    // The state after one more word.
    fn feed(state: Self::State, word: u32) -> Self::State
        ensures { (ws : List ℕ) → after result ws ≡ after state (word ∷ ws) };

    // The sum that a state stands for.
    fn finish(state: Self::State) -> u32
        ensures { result ≡ after state [] };

    // The sum of the first 124 bytes of a block.
    fn sum(block: &[u8; 128]) -> u32
        ensures { result ≡ meaning (take 124 block.now) }
    {
        let mut state = Self::start();
        for word in block[..124].as_chunks::<4>().0 {
            state = Self::feed(state, u32::from_be_bytes(*word));
        }
        Self::finish(state)
    }

    // The mark is a byte.
    ghost byte: { MARK < 256 };

    // A sum fits 32 bits.
    ghost narrow: { (bs : List ℕ) → Row bs → meaning bs < 2 ^ 32 };

    // Rows that differ in exactly one byte have different sums.
    ghost tells: { (xs ys : List ℕ) → Row xs → Row ys → OneApart xs ys → meaning xs ≢ meaning ys };
}

// Whether a block's first 124 bytes have this sum. If it is the sum of bytes that differ from them in exactly one, they do not.
pub fn has_sum<C: Checksum>(block: &[u8; 128], sum: u32) -> bool
    ensures is { result ≡ (sum == C.meaning (take 124 block.now)) }
    ensures shows { (was : List ℕ) → Row was → OneApart was (take 124 block.now) → sum ≡ C.meaning was → result ≡ false }
{
    sum == C::sum(block)
}
