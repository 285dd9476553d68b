// Four ways in which repairs and writes are often done wrongly. Each test computes a run of one stripe on three cards
// twice: as the rules have it, so that the payload last accepted is given, and done wrongly, so that a read would give
// another payload as if nothing had happened.
use block::{DataSpot, Frame, Record, Role, version};
use checksum::Fletcher;
use mending::{base_version, mended_block, new_data, new_parity, plan_of};
use std::test::Fail;
use stripe::{Decision, Plan, Stripe};

// The two data blocks of the only stripe of three cards.
#[derive(Clone, Copy)]
struct Pair {
    first: DataSpot,
    second: DataSpot,
}

fn new_pair() -> Result<Pair, Fail> {
    let frame = Frame::new(3, 1, 9)?;
    Ok(Pair {
        first: frame.data_spot(0)?,
        second: frame.data_spot(1)?,
    })
}

// The record of an owner with a payload of one byte repeated.
fn record(byte: u8, owner: u32) -> Record {
    Record {
        payload: [byte; 80],
        owner,
    }
}

// A data block of payload and version; the first index has owner 41, the second 42.
fn data_block(at: DataSpot, byte: u8, version: u32) -> [u8; 128] {
    at.data()
        .make_block::<Fletcher>(&record(byte, 41 + at.index), &[version, 0, 0, 0, 0, 0, 0])
}

fn mended_data(stripe: &Stripe, at: DataSpot) -> [u8; 128] {
    mended_block::<Fletcher>(stripe, at.data())
}

impl Pair {
    fn parity_block(self, byte: u8, first: u32, second: u32) -> [u8; 128] {
        self.first
            .parity()
            .make_block::<Fletcher>(&record(byte, 41 ^ 42), &[first, second, 0, 0, 0, 0, 0])
    }

    // The stripe that is judged from the blocks on the three cards.
    fn judged(self, first: &[u8; 128], second: &[u8; 128], parity: &[u8; 128]) -> Stripe {
        let mut stripe = Stripe::unseen();
        stripe.data[0] = self.first.data().judge_block::<Fletcher>(first);
        stripe.data[1] = self.second.data().judge_block::<Fletcher>(second);
        stripe.parity = self.first.parity().judge_block::<Fletcher>(parity);
        stripe
    }

    fn decision(self, stripe: &Stripe) -> Decision {
        stripe.decide(self.first.frame, self.first.stripe)
    }

    // The parity of a write of payload 7 to the first block.
    fn parity_of_7(self, stripe: &Stripe, plan: Plan, bad: bool, version: u32) -> [u8; 128] {
        new_parity::<Fletcher>(stripe, self.first, plan, bad, &record(7, 41), version)
    }
}

// Parity recomputed from the data as soon as they disagree: the stale payload 4 is then given for the accepted 5.
#[test]
fn parity_recomputed_from_stale_data(rt: HostRuntime) -> Result<(), Fail> {
    let pair = new_pair()?;
    let stale = data_block(pair.first, 4, 1);
    let other = data_block(pair.second, 6, 1);
    let parity = pair.parity_block(5 ^ 6, 2, 1);
    let seen = pair.judged(&stale, &other, &parity);
    assert_eq!(rt; pair.decision(&seen), Decision::Only(Role::Data(0)));
    let right = mended_data(&seen, pair.first);
    assert_eq!(rt; right[0], 5);
    let wrong = mended_block::<Fletcher>(&seen, pair.first.parity());
    let after = pair.judged(&stale, &other, &wrong);
    assert_eq!(rt; pair.decision(&after), Decision::Clean);
    assert_eq!(rt; stale[0], 4);
    Ok(())
}

// The version taken from parity although the block is good: with parity behind, the new version repeats a stored one,
// and the write of 7 that the data card loses stays hidden.
#[test]
fn version_taken_from_parity_that_is_behind(rt: HostRuntime) -> Result<(), Fail> {
    let pair = new_pair()?;
    let kept = data_block(pair.first, 5, 2);
    let other = data_block(pair.second, 6, 1);
    let behind = pair.parity_block(4 ^ 6, 1, 1);
    let seen = pair.judged(&kept, &other, &behind);
    assert_eq!(rt; pair.decision(&seen), Decision::Only(Role::Parity));
    assert_eq!(rt; base_version(&seen, pair.first), 2);
    let right = pair.parity_of_7(&seen, Plan::ByAll, true, 3);
    let found = pair.judged(&kept, &other, &right);
    assert_eq!(rt; pair.decision(&found), Decision::Only(Role::Data(0)));
    let mended = mended_data(&found, pair.first);
    assert_eq!(rt; mended[0], 7);
    let wrong = pair.parity_of_7(&seen, Plan::ByAll, true, 2);
    let hidden = pair.judged(&kept, &other, &wrong);
    assert_eq!(rt; pair.decision(&hidden), Decision::Clean);
    assert_eq!(rt; kept[0], 5);
    Ok(())
}

// A rebuild that takes the other blocks unjudged: beside a stale block it makes payload 3 of the accepted 5, and the
// block that it writes is readable and level with parity.
#[test]
fn rebuild_from_unjudged_blocks(rt: HostRuntime) -> Result<(), Fail> {
    let pair = new_pair()?;
    let lost = [0u8; 128];
    let stale = data_block(pair.second, 0, 1);
    let parity = pair.parity_block(5 ^ 6, 2, 2);
    let seen = pair.judged(&lost, &stale, &parity);
    assert_eq!(rt; pair.decision(&seen), Decision::Lost);
    let wrong = mended_data(&seen, pair.first);
    assert_eq!(rt; wrong[0], 3);
    assert_eq!(rt; version(&wrong, 0), 2);
    let after = pair.judged(&wrong, &stale, &parity);
    assert_eq!(rt; pair.decision(&after), Decision::Only(Role::Data(1)));
    Ok(())
}

// The XOR of all data where only another block is bad: the stale payload 3 of that block goes into parity, and the
// accepted 6 can no longer be rebuilt.
#[test]
fn all_data_summed_beside_a_stale_block(rt: HostRuntime) -> Result<(), Fail> {
    let pair = new_pair()?;
    let old = data_block(pair.first, 5, 2);
    let stale = data_block(pair.second, 3, 1);
    let parity = pair.parity_block(5 ^ 6, 2, 2);
    let seen = pair.judged(&old, &stale, &parity);
    assert_eq!(rt; plan_of(&seen, pair.first), Plan::BySum);
    let new = new_data::<Fletcher>(pair.first, &record(7, 41), 3);
    let right = pair.parity_of_7(&seen, Plan::BySum, false, 3);
    let found = pair.judged(&new, &stale, &right);
    let mended = mended_data(&found, pair.second);
    assert_eq!(rt; mended[0], 6);
    let wrong = pair.parity_of_7(&seen, Plan::ByAll, false, 3);
    let spoilt = pair.judged(&new, &stale, &wrong);
    assert_eq!(rt; pair.decision(&spoilt), Decision::Only(Role::Data(1)));
    let given = mended_data(&spoilt, pair.second);
    assert_eq!(rt; given[0], 3);
    Ok(())
}
