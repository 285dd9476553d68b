// Refusals of the other calls: each reason alone, and of two that hold at once the one that comes first. A refused call
// changes nothing.
use crate::bench::{Bench, Step, WHOLE, after, blank, changes_nothing, fit_refusal};
use array::{Array, RebuildJob};
use block::{HandedBack, Refusal};
use checksum::Fletcher;
use faults::Plan;
use image::Image;
use runs::{LookAnswer, Switch};
use std::alloc::Global;
use std::process::Abort;
use std::test::Fail;
use stripe::SlotState;

// A call that has no buffers.
#[derive(Clone, Copy)]
enum Call {
    Pull(u32),
    Fit(u32),
    State(u32),
    Lay(u32, u32, Plan),
    Blind(u32, u32),
    Flip(u32, u32, u32, u32),
}

fn refusal_of(array: &mut Bench, call: Call) -> Option<Refusal> {
    match call {
        Call::Pull(slot) => array.pull(slot).err(),
        Call::Fit(slot) => fit_refusal(array, slot),
        Call::State(slot) => array.slot_state(slot).err(),
        Call::Lay(slot, block, plan) => array.lay(slot, block, plan).err(),
        Call::Blind(slot, block) => array.blind(slot, block).err(),
        Call::Flip(slot, block, index, mask) => array.flip(slot, block, index, mask).err(),
    }
}

// Each call after the steps is refused by the reason.
fn are_refused(
    rt: &impl Abort,
    heap: Global,
    steps: &[Step],
    calls: &[Call],
    refusal: Refusal,
) -> Result<(), Fail> {
    for call in calls {
        changes_nothing(rt, heap, after(steps), |array| {
            assert_eq!(rt; refusal_of(array, *call), Some(refusal));
            Ok(())
        })?;
    }
    Ok(())
}

#[test]
fn slot_events_of_no_slot(rt: HostRuntime) -> Result<(), Fail> {
    let calls = [
        Call::Pull(3),
        Call::Pull(8),
        Call::Pull(4294967295),
        Call::Fit(3),
        Call::Fit(8),
        Call::State(3),
        Call::State(8),
    ];
    are_refused(&rt, rt.alloc(), WHOLE, &calls, Refusal::Place)?;
    // 4 and 6: a pull needs every slot in.
    are_refused(&rt, rt.alloc(), &[Step::Pull(0)], &calls, Refusal::Place)
}

#[test]
fn slot_events_in_another_state(rt: HostRuntime) -> Result<(), Fail> {
    let fits = [Call::Fit(0), Call::Fit(1), Call::Fit(2)];
    are_refused(&rt, rt.alloc(), WHOLE, &fits, Refusal::SlotState)?;
    let calls = [
        Call::Pull(0),
        Call::Pull(1),
        Call::Pull(2),
        Call::Fit(0),
        Call::Fit(2),
    ];
    are_refused(
        &rt,
        rt.alloc(),
        &[Step::Pull(1)],
        &calls,
        Refusal::SlotState,
    )
}

// What is out of range in a fault plan, of any kind.
const NO_PLANS: &[Call] = &[
    Call::Lay(3, 0, Plan::Lose),
    Call::Lay(0, 2, Plan::Spoil),
    Call::Lay(4294967295, 4294967295, Plan::Lose),
    Call::Lay(0, 0, Plan::Tear(0)),
    Call::Lay(0, 0, Plan::Tear(128)),
    Call::Lay(0, 0, Plan::Stray(2)),
    Call::Lay(0, 1, Plan::Stray(1)),
    Call::Blind(3, 0),
    Call::Blind(0, 2),
    Call::Flip(3, 0, 0, 1),
    Call::Flip(0, 2, 0, 1),
    Call::Flip(0, 0, 128, 1),
    Call::Flip(0, 0, 0, 0),
    Call::Flip(0, 0, 0, 256),
];

#[test]
fn fault_plans_out_of_range(rt: HostRuntime) -> Result<(), Fail> {
    are_refused(&rt, rt.alloc(), WHOLE, NO_PLANS, Refusal::Place)?;
    // 4 and 7.
    are_refused(&rt, rt.alloc(), &[Step::Full], NO_PLANS, Refusal::Place)
}

#[test]
fn fault_plans_with_a_full_table(rt: HostRuntime) -> Result<(), Fail> {
    let calls = [
        Call::Lay(0, 0, Plan::Lose),
        Call::Lay(2, 0, Plan::Tear(127)),
        Call::Lay(1, 1, Plan::Stray(0)),
        Call::Lay(1, 1, Plan::Spoil),
        Call::Blind(0, 1),
    ];
    are_refused(&rt, rt.alloc(), &[Step::Full], &calls, Refusal::TableFull)
}

fn full_but_accepted(rt: &impl Abort, array: &mut Bench) {
    assert_eq!(rt; array.blind(1, 1), Ok(()));
    assert_eq!(rt; array.flip(0, 0, 127, 255), Ok(()));
    assert_eq!(rt; array.flip(0, 0, 127, 255), Ok(()));
}

// A second mark and a flip take no row.
#[test]
fn calls_that_need_no_row(rt: HostRuntime) -> Result<(), Fail> {
    let steps = [Step::Blind(1, 1), Step::Full];
    changes_nothing(&rt, rt.alloc(), after(&steps), |array| {
        full_but_accepted(&rt, array);
        Ok(())
    })
}

fn scrub_refused(rt: &impl Abort, array: &mut Bench, stripes: u32) -> Result<(), Fail> {
    let mut rows = blank();
    assert_eq!(rt; array.scrub(stripes, &mut rows), Err(Refusal::Place));
    assert!(rt; rows == blank());
    Ok(())
}

// The stripes hold blocks that a scrub would mend.
#[test]
fn scrubs_of_too_many_stripes(rt: HostRuntime) -> Result<(), Fail> {
    let steps = [Step::Flip(0, 0), Step::Flip(1, 1)];
    for stripes in [65537, 65538, 4294967295] {
        changes_nothing(&rt, rt.alloc(), after(&steps), |array| {
            scrub_refused(&rt, array, stripes)
        })?;
    }
    Ok(())
}

fn most_stripes(rt: &impl Abort, array: &mut Bench) -> Result<(), Fail> {
    assert_eq!(rt; array.scrub(65536, &mut blank())?.looked, 65536);
    Ok(())
}

// The cursor comes back to where it was.
#[test]
fn a_scrub_of_the_most_stripes(rt: HostRuntime) -> Result<(), Fail> {
    changes_nothing(
        &rt,
        rt.alloc(),
        after(WHOLE),
        |array| most_stripes(&rt, array),
    )
}

// A job for a slot of another array, of eight cards.
fn foreign_job(heap: Global, slot: u32) -> Result<RebuildJob, Fail> {
    let image = Image::zero(heap, 8, 1)?;
    let mut other = Array::<Image, Fletcher>::open(image, 9).map_err(|_| Fail::new("no array"))?;
    let _ = other.pull(slot);
    let job = other.fit(slot);
    let _ = other.close();
    Ok(job?)
}

// Why a job cannot be finished; it is given up then.
fn finish_refusal(array: &mut Bench, job: RebuildJob) -> Option<Refusal> {
    match array.finish(job) {
        Ok(()) => None,
        Err(
            HandedBack {
                refusal,
                value: kept,
            },
        ) => {
            let _ = array.give_up(kept);
            Some(refusal)
        }
    }
}

// Rebuild, finish and give-up with a job of another array, and why each of them is refused.
fn foreign_refused(
    rt: &impl Abort,
    heap: Global,
    array: &mut Bench,
    slot: u32,
    refusal: Refusal,
) -> Result<(), Fail> {
    let job = foreign_job(heap, slot)?;
    let none = array.rebuild(&job, 0).err();
    let most = array.rebuild(&job, 65536).err();
    let more = array.rebuild(&job, 65537).err();
    let given_up = array.give_up(job).err();
    let job = foreign_job(heap, slot)?;
    let finished = finish_refusal(array, job);
    assert_eq!(rt; none, Some(refusal));
    assert_eq!(rt; most, Some(refusal));
    assert_eq!(rt; more, Some(Refusal::Place));
    assert_eq!(rt; given_up, Some(refusal));
    assert_eq!(rt; finished, Some(refusal));
    Ok(())
}

// A job for a slot that the array has not, or that is not being filled. Too many stripes are refused first.
#[test]
fn jobs_of_another_array(rt: HostRuntime) -> Result<(), Fail> {
    for steps in [WHOLE, &[Step::Pull(1)]] {
        for slot in [3, 7] {
            changes_nothing(&rt, rt.alloc(), after(steps), |array| {
                foreign_refused(&rt, rt.alloc(), array, slot, Refusal::Place)
            })?;
        }
        for slot in [0, 1, 2] {
            changes_nothing(&rt, rt.alloc(), after(steps), |array| {
                foreign_refused(&rt, rt.alloc(), array, slot, Refusal::SlotState)
            })?;
        }
    }
    Ok(())
}

// A rebuild of slot 1, one of whose two stripes is done. Too many stripes and an early finish change nothing.
fn half_rebuilt(rt: &impl Abort, array: &mut Bench) -> Result<(), Fail> {
    let job = array.fit(1)?;
    let moved = array.rebuild(&job, 1);
    let more = array.rebuild(&job, 65537).err();
    let most = array.rebuild(&job, 4294967295).err();
    let half = array.slot_state(1);
    let (early, kept) = match array.finish(job) {
        Ok(()) => return Err(Fail::new("finished")),
        Err(HandedBack { refusal, value }) => (refusal, value),
    };
    let still = array.slot_state(1);
    let fitted = fit_refusal(array, 1);
    let pulled = array.pull(1).err();
    let left = array.give_up(kept);
    assert_eq!(rt; moved?.mended, 1);
    assert_eq!(rt; more, Some(Refusal::Place));
    assert_eq!(rt; most, Some(Refusal::Place));
    assert_eq!(rt; half, Ok(SlotState::Filling(1)));
    assert_eq!(rt; early, Refusal::SlotState);
    assert_eq!(rt; still, Ok(SlotState::Filling(1)));
    assert_eq!(rt; fitted, Some(Refusal::SlotState));
    assert_eq!(rt; pulled, Some(Refusal::SlotState));
    assert_eq!(rt; left, Ok(()));
    Ok(())
}

// The one stripe that is rebuilt gets the block that it has.
#[test]
fn calls_on_a_slot_that_is_filled(rt: HostRuntime) -> Result<(), Fail> {
    changes_nothing(&rt, rt.alloc(), after(&[Step::Pull(1)]), |array| {
        half_rebuilt(&rt, array)
    })
}

// A look at a stretch, into a buffer of a length.
#[derive(Clone, Copy)]
struct Stretch {
    first: u32,
    count: u32,
    length: usize,
    refusal: Refusal,
}

fn stretch_of(first: u32, count: u32, length: usize, refusal: Refusal) -> Stretch {
    Stretch {
        first,
        count,
        length,
        refusal,
    }
}

fn look_refused(
    rt: &impl Abort,
    array: &mut Bench,
    mending: bool,
    case: Stretch,
) -> Result<(), Fail> {
    let mut switch = Switch { mending };
    let mut out = [3u8; 320];
    let part = out.get_mut(..case.length).ok_or("too long")?;
    let answer = array.look(case.first, case.count, 41, &mut switch, part);
    assert_eq!(rt; answer, Err(case.refusal));
    assert!(rt; out == [3; 320]);
    assert_eq!(rt; switch.mending, mending);
    Ok(())
}

#[test]
fn looks_refused(rt: HostRuntime) -> Result<(), Fail> {
    let cases = [
        // A buffer of another length.
        stretch_of(0, 1, 79, Refusal::Length),
        stretch_of(0, 1, 81, Refusal::Length),
        stretch_of(0, 2, 80, Refusal::Length),
        stretch_of(0, 0, 1, Refusal::Length),
        // A first address or an end beyond the array.
        stretch_of(4, 0, 0, Refusal::Address),
        stretch_of(4, 1, 80, Refusal::Address),
        stretch_of(3, 2, 160, Refusal::Address),
        stretch_of(4294967295, 0, 0, Refusal::Address),
        stretch_of(4294967295, 1, 80, Refusal::Address),
        // 1 and 3.
        stretch_of(4, 0, 80, Refusal::Length),
        stretch_of(4, 1, 79, Refusal::Length),
        stretch_of(3, 2, 80, Refusal::Length),
        stretch_of(0, 4294967295, 80, Refusal::Length),
    ];
    for case in &cases {
        for mending in [false, true] {
            changes_nothing(&rt, rt.alloc(), after(&[Step::Flip(0, 0)]), |array| {
                look_refused(&rt, array, mending, *case)
            })?;
        }
    }
    Ok(())
}

// A look at addresses 0 and 1 that stops at once.
fn look_stopped(
    rt: &impl Abort,
    array: &mut Bench,
    owner: u32,
    refusal: Refusal,
) -> Result<(), Fail> {
    let mut switch = Switch { mending: true };
    let mut out = [3u8; 160];
    let answer = array.look(0, 2, owner, &mut switch, &mut out);
    let stopped = LookAnswer {
        read: 0,
        stopped: Some(refusal),
    };
    assert_eq!(rt; answer, Ok(stopped));
    assert!(rt; out == [0; 160]);
    assert!(rt; switch.mending);
    Ok(())
}

// 8, 9, and both: the buffer is zero and nothing is mended.
#[test]
fn looks_stopped(rt: HostRuntime) -> Result<(), Fail> {
    let lost = [Step::Flip(0, 0), Step::Blind(1, 0)];
    for owner in [41, 5] {
        changes_nothing(&rt, rt.alloc(), after(&lost), |array| {
            look_stopped(&rt, array, owner, Refusal::Lost)
        })?;
    }
    changes_nothing(&rt, rt.alloc(), after(&[Step::Flip(0, 0)]), |array| {
        look_stopped(&rt, array, 5, Refusal::OtherOwner)
    })
}
