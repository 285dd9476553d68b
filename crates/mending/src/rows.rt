// The XOR of the blocks of a stripe: payloads, 80 bytes at a time, and owners.
ghost use Rattle.std.specs.Prelude.{◌≡◌, ℕ, ◌<◌, ◌≤◌, length, slice_index};
ghost use Rattle.stripe.specs.Mend.{byte_in, owner_in, version_in};
ghost use Rattle.mending.specs.Rows.{xor_row, data_row, data_owner};

use block::{Verdict, owner, version};
use stripe::Stripe;

// XOR of a payload with the first 80 bytes of another row.
pub fn xor_bytes(row: &mut [u8; 80], other: &[u8])
    requires { 80 ≤ length other.now }
    ensures { row.new ≡ xor_row row.old (λ i. slice_index other.now i) }
{
    for (i, byte) in row.iter_mut().enumerate() {
        *byte ^= other[i];
    }
}

// XOR of a payload with a block's; an unfit block counts as zeros.
pub fn xor_block(row: &mut [u8; 80], block: &Verdict)
    ensures { row.new ≡ xor_row row.old (λ i. byte_in block.now i) }
{
    match block {
        Ok(b) => xor_bytes(row, b),
        Err(_) => {}
    }
}

// The XOR of the data payloads, with another one in place of index j.
pub fn data_row(stripe: &Stripe, width: u32, j: u32, payload: &[u8; 80]) -> [u8; 80]
    requires { width ≤ 7 }
    ensures { result ≡ data_row stripe.now.«data» width j payload.now }
{
    let mut row = [0u8; 80];
    for (k, block) in stripe.data[..width as usize].iter().enumerate() {
        if k == j as usize {
            xor_bytes(&mut row, payload);
        } else {
            xor_block(&mut row, block);
        }
    }
    row
}

// The owner of a block; 0 where it is unfit.
pub fn owner_in(block: &Verdict) -> u32
    ensures { result ≡ owner_in block.now }
{
    block.as_ref().map_or(0, |b| owner(b))
}

// Version k of a block; 0 where it is unfit.
pub fn version_in(block: &Verdict, k: u32) -> u32
    requires { k < 7 }
    ensures { result ≡ version_in block.now k }
{
    block.as_ref().map_or(0, |b| version(b, k))
}

// The XOR of the data owners, with another one in place of index j.
pub fn data_owner(stripe: &Stripe, width: u32, j: u32, owner: u32) -> u32
    requires { width ≤ 7 }
    ensures { result ≡ data_owner stripe.now.«data» width j owner }
{
    let mut all = 0;
    for (k, block) in stripe.data[..width as usize].iter().enumerate() {
        all ^= if k == j as usize {
            owner
        } else {
            owner_in(block)
        };
    }
    all
}
