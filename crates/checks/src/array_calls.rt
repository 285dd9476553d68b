// Refusals of the array's calls, where two reasons apply at once, and that a refused call changes nothing.
use crate::bench::{Bench, fit_refusal};
use array::Array;
use block::{HandedBack, Refusal};
use checksum::{Checksum, Fletcher};
use faults::FaultLayer;
use image::Image;
use runs::{Switch, Way};
use shelf::{ReadableShelf, WritableShelf};
use std::process::Abort;
use std::test::Fail;
use stripe::{Finding, SlotState};

// Three cards with two blocks each: addresses 0 to 3.
fn bench(rt: &HostRuntime) -> Result<Bench, Fail> {
    let image = Image::zero(rt.alloc(), 3, 2)?;
    Bench::format(FaultLayer::over(image), 9).map_err(|_| Fail::new("no array"))
}

// What a check of an array tells; the array is closed afterwards.
fn on_bench<F: FnOnce(&mut Bench) -> Result<(), Fail>>(
    rt: &HostRuntime,
    check: F,
) -> Result<(), Fail>
    requires { F.IsAlwaysCallable check }
{
    let mut array = bench(rt)?;
    let told = check(&mut array);
    let _ = array.close();
    told
}

fn blank() -> [Finding; 8] {
    [Finding {
        slot: 77,
        ..Finding::default()
    }; 8]
}

// Address 0 is lost: its block and the other data block of its stripe are blind.
fn lose_address_0(array: &mut Bench) -> Result<(), Fail> {
    array.blind(0, 0)?;
    array.blind(1, 0)?;
    Ok(())
}

fn read_refusals(rt: &impl Abort, array: &mut Bench) -> Result<(), Fail> {
    let on = Switch { mending: true };
    let mut short = [1u8; 127];
    let mut found = [1u8; 128];
    let mut rebuilt = [1u8; 128];
    let mut rows = blank();
    assert_eq!(rt;
        array.read(4, 0, &on, &mut short, &mut rebuilt, &mut rows),
        Err(Refusal::Length)
    );
    assert_eq!(rt;
        array.read(4, 0, &on, &mut found, &mut rebuilt, &mut rows),
        Err(Refusal::Address)
    );
    assert!(rt; found[0] == 1 && rebuilt[127] == 1 && rows[0].slot == 77);
    assert_eq!(rt;
        array.read(2, 5, &on, &mut found, &mut rebuilt, &mut rows),
        Err(Refusal::OtherOwner)
    );
    assert!(rt; found[0] == 0 && rebuilt[127] == 0 && rows[0].slot == 0);
    lose_address_0(array)?;
    assert_eq!(rt;
        array.read(0, 5, &on, &mut found, &mut rebuilt, &mut rows),
        Err(Refusal::Lost)
    );
    assert_eq!(rt; array.tally(), 0);
    Ok(())
}

#[test]
fn reads_are_refused_by_the_smallest_number(rt: HostRuntime) -> Result<(), Fail> {
    on_bench(&rt, |array| read_refusals(&rt, array))
}

fn write_refusals(rt: &impl Abort, array: &mut Bench) -> Result<(), Fail> {
    let mut rows = blank();
    lose_address_0(array)?;
    assert_eq!(rt;
        array.write(4, 0, &[2; 79], Way::Additive, &mut rows),
        Err(Refusal::Length)
    );
    assert_eq!(rt;
        array.write(4, 0, &[2; 80], Way::Additive, &mut rows),
        Err(Refusal::Address)
    );
    assert_eq!(rt;
        array.write(0, 0, &[2; 80], Way::Additive, &mut rows),
        Err(Refusal::NoOwner)
    );
    assert!(rt; rows[0].slot == 77);
    assert_eq!(rt;
        array.write(0, 5, &[2; 80], Way::Subtractive, &mut rows),
        Err(Refusal::Lost)
    );
    assert!(rt; rows[0].slot == 0);
    assert!(rt;
        matches!(
            array.write(2, 5, &[2; 80], Way::Subtractive, &mut rows),
            Ok(_)
        )
    );
    Ok(())
}

#[test]
fn writes_are_refused_by_the_smallest_number(rt: HostRuntime) -> Result<(), Fail> {
    on_bench(&rt, |array| write_refusals(&rt, array))
}

fn slot_refusals(rt: &impl Abort, array: &mut Bench) -> Result<(), Fail> {
    assert_eq!(rt; array.pull(3), Err(Refusal::Place));
    assert_eq!(rt; fit_refusal(array, 3), Some(Refusal::Place));
    assert_eq!(rt; fit_refusal(array, 0), Some(Refusal::SlotState));
    assert_eq!(rt; array.pull(0), Ok(()));
    assert_eq!(rt; array.pull(1), Err(Refusal::SlotState));
    assert_eq!(rt; array.slot_state(0), Ok(SlotState::Out));
    assert_eq!(rt; array.slot_state(3), Err(Refusal::Place));
    Ok(())
}

#[test]
fn slot_events_are_refused_by_the_smallest_number(rt: HostRuntime) -> Result<(), Fail> {
    on_bench(&rt, |array| slot_refusals(&rt, array))
}

fn rebuild_refusals(rt: &impl Abort, array: &mut Bench) -> Result<(), Fail> {
    array.pull(1)?;
    let job = array.fit(1)?;
    let many = array.rebuild(&job, 65537);
    let none = array.rebuild(&job, 0);
    let early = match array.finish(job) {
        Ok(()) => None,
        Err(
            HandedBack {
                refusal,
                value: kept,
            },
        ) => {
            let _ = array.give_up(kept);
            Some(refusal)
        }
    };
    assert_eq!(rt; many, Err(Refusal::Place));
    assert!(rt; matches!(none, Ok(_)));
    assert_eq!(rt; early, Some(Refusal::SlotState));
    assert_eq!(rt; array.slot_state(1), Ok(SlotState::Out));
    Ok(())
}

#[test]
fn rebuilds_are_refused_by_the_smallest_number(rt: HostRuntime) -> Result<(), Fail> {
    on_bench(&rt, |array| rebuild_refusals(&rt, array))
}

fn look_refusals(rt: &impl Abort, array: &mut Bench) -> Result<(), Fail> {
    let mut switch = Switch { mending: true };
    let mut rows = blank();
    let mut out = [3u8; 160];
    assert!(rt; matches!(array.write(3, 5, &[2; 80], Way::Additive, &mut rows), Ok(_)));
    assert_eq!(rt;
        array.look(4, 3, 0, &mut switch, &mut out),
        Err(Refusal::Length)
    );
    assert_eq!(rt;
        array.look(3, 2, 0, &mut switch, &mut out),
        Err(Refusal::Address)
    );
    let mut none = [0u8; 0];
    assert_eq!(rt;
        array.look(4, 0, 0, &mut switch, &mut none),
        Err(Refusal::Address)
    );
    assert!(rt; out[0] == 3 && out[159] == 3 && switch.mending);
    let answer = array.look(2, 2, 0, &mut switch, &mut out)?;
    assert_eq!(rt; answer.read, 1);
    assert_eq!(rt; answer.stopped, Some(Refusal::OtherOwner));
    assert!(rt; out[0] == 0 && out[159] == 0 && switch.mending);
    assert_eq!(rt; array.scrub(65537, &mut rows), Err(Refusal::Place));
    Ok(())
}

#[test]
fn looks_are_refused_by_the_smallest_number(rt: HostRuntime) -> Result<(), Fail> {
    on_bench(&rt, |array| look_refusals(&rt, array))
}

#[test]
fn a_tag_of_0_hands_the_shelf_back(rt: HostRuntime) -> Result<(), Fail> {
    let image = Image::zero(rt.alloc(), 3, 2)?;
    match Array::<Image, Fletcher>::open(image, 0) {
        Ok(array) => {
            let _ = array.close();
            Err(Fail::new("opened"))
        }
        Err(back) => {
            assert_eq!(rt; back.refusal, Refusal::Shape);
            Ok(())
        },
    }
}
