// A block made again from the others of its stripe.
ghost use Rattle.std.specs.Prelude.{◌≡◌, ℕ, ◌<◌, ◌≤◌};
ghost use Rattle.block.specs.Judging.{setup};
ghost use Rattle.stripe.specs.View.{seen_in};
ghost use Rattle.stripe.specs.Mend.{owner_in, others, others_row, mended_version, mended_versions, mended};

use crate::rows::{data_owner, data_row, owner_in, version_in, xor_block};
use block::{Frame, Record, Role, Spot};
use checksum::Checksum;
use std::array;
use stripe::Stripe;

// The XOR of the payloads of all the other blocks.
fn others_row(stripe: &Stripe, frame: Frame, role: Role) -> [u8; 80]
    ensures { result ≡ others_row frame.width (seen_in stripe.now) role }
{
    let zeros = [0u8; 80];
    match role {
        Role::Parity => data_row(stripe, frame.width, frame.width, &zeros),
        Role::Data(j) => {
            let mut row = data_row(stripe, frame.width, j, &zeros);
            xor_block(&mut row, &stripe.parity);
            row
        }
    }
}

// The XOR of the owners of all the other blocks: the owner of a mended data block.
pub fn others_owner(stripe: &Stripe, frame: Frame, role: Role) -> u32
    ensures { result ≡ others frame.width (seen_in stripe.now) role owner_in }
{
    match role {
        Role::Parity => data_owner(stripe, frame.width, frame.width, 0),
        Role::Data(j) => owner_in(&stripe.parity) ^ data_owner(stripe, frame.width, j, 0),
    }
}

fn mended_version(stripe: &Stripe, spot: Spot, k: u32) -> u32
    ensures { result ≡ mended_version spot.frame.width (seen_in stripe.now) spot.role k }
{
    match spot.role {
        Role::Parity if k < spot.frame.width => version_in(stripe.data_at(k), 0),
        Role::Data(j) if k == 0 => version_in(&stripe.parity, j),
        _ => 0,
    }
}

fn mended_versions(stripe: &Stripe, spot: Spot) -> [u32; 7]
    ensures { result ≡ mended_versions spot.frame.width (seen_in stripe.now) spot.role }
{
    array::from_fn(|k| mended_version(stripe, spot, k as u32))
}

// The block that mends another. A data block has the XOR of all the others and the version that parity mirrors; parity
// has the XOR of the data and their versions.
pub fn mended_block<C: Checksum>(stripe: &Stripe, spot: Spot) -> [u8; 128]
    ensures { result ≡ mended (setup spot.frame C.MARK C.meaning) spot.stripe (seen_in stripe.now) spot.role }
{
    let kept = Record {
        payload: others_row(stripe, spot.frame, spot.role),
        owner: others_owner(stripe, spot.frame, spot.role),
    };
    spot.make_block::<C>(&kept, &mended_versions(stripe, spot))
}
