// The new data block and the new parity block of a write.
ghost use Rattle.std.specs.Prelude.{◌≡◌, ℕ, ◌<◌, ◌≤◌, Bool, ◌||◌};
ghost use Rattle.block.specs.Judging.{setup};
ghost use Rattle.stripe.specs.View.{seen_in};
ghost use Rattle.stripe.specs.Mend.{owner_in};
ghost use Rattle.stripe.specs.Renew.{touched, plan_for, plan_of, base_version, summed, summed_row, other_version, new_version_at, new_versions, new_data, new_parity};

use crate::rows::{data_owner, data_row, owner_in, version_in, xor_block};
use block::{DataSpot, Record};
use checksum::Checksum;
use std::array;
use stripe::{Decision, Plan, Stripe};

// Whether a data block or its parity is bad.
fn is_touched(stripe: &Stripe, at: DataSpot) -> bool
    ensures { result ≡ touched at.frame.width (seen_in stripe.now) at.index }
{
    stripe.is_bad(at.data()) || stripe.is_bad(at.parity())
}

fn plan_for(hit: bool, decision: Decision) -> Plan
    ensures { result ≡ plan_for hit decision }
{
    match decision {
        Decision::Clean => Plan::ByAll,
        Decision::Only(_) if hit => Plan::ByAll,
        Decision::Lost if hit => Plan::Lost,
        Decision::Only(_) | Decision::Lost => Plan::BySum,
    }
}

// How a write of a data block makes the new parity, once all places of its stripe were looked at.
pub fn plan_of(stripe: &Stripe, at: DataSpot) -> Plan
    ensures { result ≡ plan_of at.frame.width at.stripe (seen_in stripe.now) at.index }
{
    plan_for(is_touched(stripe, at), stripe.decide(at.frame, at.stripe))
}

// The version that a write of a data block goes one above: the block's, or the mirrored one if the block is bad.
pub fn base_version(stripe: &Stripe, at: DataSpot) -> u32
    ensures { result ≡ base_version at.frame.width (seen_in stripe.now) at.index }
{
    if stripe.is_bad(at.data()) {
        version_in(&stripe.parity, at.index)
    } else {
        version_in(stripe.data_at(at.index), 0)
    }
}

// The payload of the new parity.
fn summed_row(plan: Plan, stripe: &Stripe, at: DataSpot, payload: &[u8; 80]) -> [u8; 80]
    ensures { result ≡ summed_row plan at.frame.width (seen_in stripe.now) at.index payload.now }
{
    match plan {
        Plan::Lost => [0u8; 80],
        Plan::BySum => {
            let mut row = *payload;
            xor_block(&mut row, stripe.data_at(at.index));
            xor_block(&mut row, &stripe.parity);
            row
        }
        Plan::ByAll => data_row(stripe, at.frame.width, at.index, payload),
    }
}

// The owner of the new parity.
fn summed_owner(plan: Plan, stripe: &Stripe, at: DataSpot, owner: u32) -> u32
    ensures { result ≡ summed plan at.frame.width (seen_in stripe.now) at.index owner_in owner }
{
    match plan {
        Plan::Lost => 0,
        Plan::BySum => owner_in(&stripe.parity) ^ owner_in(stripe.data_at(at.index)) ^ owner,
        Plan::ByAll => data_owner(stripe, at.frame.width, at.index, owner),
    }
}

// Where parity is bad, the other versions come from the data.
fn other_version(bad: bool, stripe: &Stripe, k: u32) -> u32
    requires { k < 7 }
    ensures { result ≡ other_version bad (seen_in stripe.now) k }
{
    if bad {
        version_in(stripe.data_at(k), 0)
    } else {
        version_in(&stripe.parity, k)
    }
}

fn new_version_at(bad: bool, stripe: &Stripe, at: DataSpot, version: u32, k: u32) -> u32
    ensures { result ≡ new_version_at bad at.frame.width (seen_in stripe.now) at.index version k }
{
    if k >= at.frame.width {
        0
    } else if k == at.index {
        version
    } else {
        other_version(bad, stripe, k)
    }
}

fn new_versions(bad: bool, stripe: &Stripe, at: DataSpot, version: u32) -> [u32; 7]
    ensures { result ≡ new_versions bad at.frame.width (seen_in stripe.now) at.index version }
{
    array::from_fn(|k| new_version_at(bad, stripe, at, version, k as u32))
}

// The new data block.
pub fn new_data<C: Checksum>(at: DataSpot, kept: &Record, version: u32) -> [u8; 128]
    ensures { result ≡ new_data (setup at.frame C.MARK C.meaning) at.stripe at.index kept.now.payload kept.now.owner version }
{
    at.data()
        .make_block::<C>(kept, &[version, 0, 0, 0, 0, 0, 0])
}

// The new parity block, by a plan. Where old parity is bad, the versions of the other indices come from the data. Plan and
// bad are both the definition's: each pair of them makes another block.
pub fn new_parity<C: Checksum>(
    stripe: &Stripe,
    at: DataSpot,
    plan: Plan,
    bad: bool,
    kept: &Record,
    version: u32,
) -> [u8; 128]
    ensures { result ≡ new_parity (setup at.frame C.MARK C.meaning) at.stripe (seen_in stripe.now) at.index plan bad kept.now.payload kept.now.owner version }
{
    let sum = Record {
        payload: summed_row(plan, stripe, at, &kept.payload),
        owner: summed_owner(plan, stripe, at, kept.owner),
    };
    at.parity()
        .make_block::<C>(&sum, &new_versions(bad, stripe, at, version))
}
