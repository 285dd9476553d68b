// Refusals of reads and writes: each reason alone, and of two that hold at once the one that comes first. A refused call
// changes nothing; where it comes after looking, the buffers are zero and the findings are filled.
use crate::bench::{Bench, Scene, Step, TOP, WHOLE, after, are_filled, blank, changes_nothing};
use block::Refusal;
use runs::{Switch, Way};
use std::alloc::Global;
use std::process::Abort;
use std::test::Fail;
use stripe::{Cause, Condition};

// The block of address 0, and another block of its stripe.
const LOST_0: &[Step] = &[Step::Blind(0, 0), Step::Blind(1, 0)];

const LOST_2: &[Step] = &[Step::Blind(0, 1), Step::Blind(2, 1)];

const SEEN: Condition = Condition::Readable;

const UNSEEN: Condition = Condition::NotLooked;

const BLIND: Condition = Condition::Bad(Cause::Blind);

const BROKEN: Condition = Condition::Bad(Cause::Broken);

const BEHIND: Condition = Condition::Bad(Cause::Behind);

// A read that is refused before it looks; the lengths are those of its buffers.
#[derive(Clone, Copy)]
struct EarlyRead<'a> {
    steps: &'a [Step],
    found: usize,
    rebuilt: usize,
    address: u32,
    owner: u32,
    refusal: Refusal,
}

fn early_read(
    steps: &[Step],
    found: usize,
    rebuilt: usize,
    address: u32,
    owner: u32,
    refusal: Refusal,
) -> EarlyRead<'_> {
    EarlyRead {
        steps,
        found,
        rebuilt,
        address,
        owner,
        refusal,
    }
}

fn read_early(rt: &impl Abort, array: &mut Bench, case: EarlyRead) -> Result<(), Fail> {
    let mut found = [1u8; 129];
    let mut rebuilt = [2u8; 129];
    let mut rows = blank();
    let answer = array.read(
        case.address,
        case.owner,
        &Switch { mending: true },
        found.get_mut(..case.found).ok_or("too long")?,
        rebuilt.get_mut(..case.rebuilt).ok_or("too long")?,
        &mut rows,
    );
    assert_eq!(rt; answer, Err(case.refusal));
    assert!(rt; found == [1; 129]);
    assert!(rt; rebuilt == [2; 129]);
    assert!(rt; rows == blank());
    Ok(())
}

#[test]
fn reads_refused_before_looking(rt: HostRuntime) -> Result<(), Fail> {
    let cases = [
        // A buffer that is not 128 bytes long.
        early_read(WHOLE, 127, 128, 0, 41, Refusal::Length),
        early_read(WHOLE, 129, 128, 0, 41, Refusal::Length),
        early_read(WHOLE, 0, 128, 0, 41, Refusal::Length),
        early_read(WHOLE, 128, 127, 0, 41, Refusal::Length),
        early_read(WHOLE, 128, 129, 0, 41, Refusal::Length),
        early_read(WHOLE, 127, 129, 0, 41, Refusal::Length),
        // An address beyond the array.
        early_read(WHOLE, 128, 128, 4, 41, Refusal::Address),
        early_read(WHOLE, 128, 128, 4294967295, 0, Refusal::Address),
        // 1 and 3.
        early_read(WHOLE, 127, 128, 4, 41, Refusal::Length),
        early_read(WHOLE, 128, 129, 4, 41, Refusal::Length),
        // 1 and 8.
        early_read(LOST_0, 127, 128, 0, 41, Refusal::Length),
        early_read(LOST_0, 128, 127, 0, 41, Refusal::Length),
        // 1 and 9.
        early_read(WHOLE, 127, 128, 0, 5, Refusal::Length),
        early_read(WHOLE, 128, 127, 0, 5, Refusal::Length),
        // 1, 8 and 9.
        early_read(LOST_0, 127, 128, 0, 5, Refusal::Length),
    ];
    for case in &cases {
        changes_nothing(
            &rt,
            rt.alloc(),
            after(case.steps),
            |array| read_early(&rt, array, *case),
        )?;
    }
    Ok(())
}

// A read of address 0 that is refused after looking, and what it then says of the three slots.
#[derive(Clone, Copy)]
struct LateRead<'a> {
    steps: &'a [Step],
    seen: [Condition; 3],
}

fn late_read(steps: &[Step], seen: [Condition; 3]) -> LateRead<'_> {
    LateRead { steps, seen }
}

fn read_late(
    rt: &impl Abort,
    array: &mut Bench,
    mending: bool,
    owner: u32,
    refusal: Refusal,
    seen: [Condition; 3],
) -> Result<(), Fail> {
    let mut found = [1u8; 128];
    let mut rebuilt = [2u8; 128];
    let mut rows = blank();
    let switch = Switch { mending };
    let answer = array.read(0, owner, &switch, &mut found, &mut rebuilt, &mut rows);
    assert_eq!(rt; answer, Err(refusal));
    assert!(rt; found == [0; 128]);
    assert!(rt; rebuilt == [0; 128]);
    assert!(rt; are_filled(&rows, 0, seen));
    Ok(())
}

// Reads for an owner, with the mending switch off and on.
fn late_reads(
    rt: &impl Abort,
    heap: Global,
    owner: u32,
    refusal: Refusal,
    cases: &[LateRead],
) -> Result<(), Fail> {
    for case in cases {
        for mending in [false, true] {
            changes_nothing(rt, heap, after(case.steps), |array| {
                read_late(rt, array, mending, owner, refusal, case.seen)
            })?;
        }
    }
    Ok(())
}

// Address 0 is lost.
#[test]
fn reads_of_lost_blocks(rt: HostRuntime) -> Result<(), Fail> {
    let cases = [
        late_read(LOST_0, [BLIND, BLIND, SEEN]),
        late_read(
            &[Step::Blind(0, 0), Step::Blind(2, 0)],
            [BLIND, SEEN, BLIND],
        ),
        late_read(
            &[Step::Flip(0, 0), Step::Flip(2, 0)],
            [BROKEN, SEEN, BROKEN],
        ),
        late_read(
            &[Step::Flip(0, 0), Step::Blind(1, 0)],
            [BROKEN, BLIND, SEEN],
        ),
        late_read(&[Step::Pull(0), Step::Flip(1, 0)], [BLIND, BROKEN, SEEN]),
    ];
    late_reads(&rt, rt.alloc(), 41, Refusal::Lost, &cases)?;
    // 8 and 9: the owner is another one.
    late_reads(&rt, rt.alloc(), 5, Refusal::Lost, &cases)
}

#[test]
fn reads_for_another_owner(rt: HostRuntime) -> Result<(), Fail> {
    let cases = [
        // Block and parity are readable and level: no more is looked at.
        late_read(WHOLE, [SEEN, UNSEEN, SEEN]),
        late_read(&[Step::Blind(1, 0)], [SEEN, UNSEEN, SEEN]),
        // The block would be rebuilt; it is not mended.
        late_read(&[Step::Blind(0, 0)], [BLIND, SEEN, SEEN]),
        late_read(&[Step::Flip(0, 0)], [BROKEN, SEEN, SEEN]),
        late_read(&[Step::Pull(0)], [BLIND, SEEN, SEEN]),
        // The block is found, and parity is the only bad one; it is not mended.
        late_read(&[Step::Blind(2, 0)], [SEEN, SEEN, BLIND]),
        late_read(&[Step::Flip(2, 0)], [SEEN, SEEN, BROKEN]),
        late_read(&[Step::Pull(2)], [SEEN, SEEN, BLIND]),
        // The block is found beside two bad ones.
        late_read(
            &[Step::Blind(1, 0), Step::Flip(2, 0)],
            [SEEN, BLIND, BROKEN],
        ),
    ];
    for owner in [0, 5, 42] {
        late_reads(&rt, rt.alloc(), owner, Refusal::OtherOwner, &cases)?;
    }
    Ok(())
}

// A write that is refused before it looks, of a payload of a length.
#[derive(Clone, Copy)]
struct EarlyWrite<'a> {
    steps: &'a [Step],
    length: usize,
    address: u32,
    owner: u32,
    refusal: Refusal,
}

fn early_write(
    steps: &[Step],
    length: usize,
    address: u32,
    owner: u32,
    refusal: Refusal,
) -> EarlyWrite<'_> {
    EarlyWrite {
        steps,
        length,
        address,
        owner,
        refusal,
    }
}

fn write_early(rt: &impl Abort, array: &mut Bench, way: Way, case: EarlyWrite) -> Result<(), Fail> {
    let bytes = [7u8; 81];
    let payload = bytes.get(..case.length).ok_or("too long")?;
    let mut rows = blank();
    let answer = array.write(case.address, case.owner, payload, way, &mut rows);
    assert_eq!(rt; answer, Err(case.refusal));
    assert!(rt; rows == blank());
    Ok(())
}

#[test]
fn writes_refused_before_looking(rt: HostRuntime) -> Result<(), Fail> {
    let cases = [
        // A payload that is not 80 bytes long.
        early_write(WHOLE, 79, 0, 41, Refusal::Length),
        early_write(WHOLE, 81, 0, 41, Refusal::Length),
        early_write(WHOLE, 0, 0, 41, Refusal::Length),
        // An address beyond the array.
        early_write(WHOLE, 80, 4, 41, Refusal::Address),
        early_write(WHOLE, 80, 4294967295, 41, Refusal::Address),
        // Owner 0.
        early_write(WHOLE, 80, 0, 0, Refusal::NoOwner),
        // 1 and 3.
        early_write(WHOLE, 79, 4, 41, Refusal::Length),
        early_write(WHOLE, 81, 4, 41, Refusal::Length),
        // 1 and 5.
        early_write(WHOLE, 79, 0, 0, Refusal::Length),
        early_write(WHOLE, 81, 0, 0, Refusal::Length),
        // 1 and 8.
        early_write(LOST_0, 79, 0, 41, Refusal::Length),
        early_write(LOST_0, 81, 0, 41, Refusal::Length),
        // 1 and 10.
        early_write(WHOLE, 79, 2, 41, Refusal::Length),
        early_write(WHOLE, 81, 2, 41, Refusal::Length),
        // 3 and 5.
        early_write(WHOLE, 80, 4, 0, Refusal::Address),
        early_write(WHOLE, 80, 4294967295, 0, Refusal::Address),
        // 5 and 8.
        early_write(LOST_0, 80, 0, 0, Refusal::NoOwner),
        // 5 and 10.
        early_write(WHOLE, 80, 2, 0, Refusal::NoOwner),
        // A plan to lose the write is not used up.
        early_write(&[Step::Lose(0, 0)], 79, 0, 41, Refusal::Length),
        early_write(&[Step::Lose(0, 0)], 80, 0, 0, Refusal::NoOwner),
        // More than two.
        early_write(WHOLE, 79, 4, 0, Refusal::Length),
        early_write(LOST_2, 79, 2, 0, Refusal::Length),
        early_write(LOST_2, 80, 2, 0, Refusal::NoOwner),
    ];
    for case in &cases {
        for way in [Way::Subtractive, Way::Additive] {
            changes_nothing(&rt, rt.alloc(), after(case.steps), |array| {
                write_early(&rt, array, way, *case)
            })?;
        }
    }
    Ok(())
}

// A write that is refused after looking, and what it then says of the three slots, in the subtractive and the additive way.
#[derive(Clone, Copy)]
struct LateWrite<'a> {
    scene: Scene<'a>,
    address: u32,
    refusal: Refusal,
    quick: [Condition; 3],
    seen: [Condition; 3],
}

fn write_late(rt: &impl Abort, array: &mut Bench, way: Way, case: LateWrite) -> Result<(), Fail> {
    let mut rows = blank();
    let answer = array.write(case.address, 6, &[7; 80], way, &mut rows);
    assert_eq!(rt; answer, Err(case.refusal));
    let seen = match way {
        Way::Subtractive => case.quick,
        Way::Additive => case.seen,
    };
    assert!(rt; are_filled(&rows, case.address / 2, seen));
    Ok(())
}

fn late_writes(rt: &impl Abort, heap: Global, cases: &[LateWrite]) -> Result<(), Fail> {
    for case in cases {
        for way in [Way::Subtractive, Way::Additive] {
            changes_nothing(
                rt,
                heap,
                case.scene,
                |array| write_late(rt, array, way, *case),
            )?;
        }
    }
    Ok(())
}

// A write that looks at all places either way.
fn full_write(
    scene: Scene<'_>,
    address: u32,
    refusal: Refusal,
    seen: [Condition; 3],
) -> LateWrite<'_> {
    LateWrite {
        scene,
        address,
        refusal,
        quick: seen,
        seen,
    }
}

fn lost_write(steps: &[Step], address: u32, seen: [Condition; 3]) -> LateWrite<'_> {
    full_write(after(steps), address, Refusal::Lost, seen)
}

// A write of address 2, which has the greatest version or has it mirrored.
fn greatest_write(scene: Scene<'_>, seen: [Condition; 3]) -> LateWrite<'_> {
    full_write(scene, 2, Refusal::VersionLimit, seen)
}

#[test]
fn writes_of_lost_blocks(rt: HostRuntime) -> Result<(), Fail> {
    late_writes(
        &rt,
        rt.alloc(),
        &[
            lost_write(LOST_0, 0, [BLIND, BLIND, SEEN]),
            lost_write(
                &[Step::Blind(0, 0), Step::Blind(2, 0)],
                0,
                [BLIND, SEEN, BLIND],
            ),
            lost_write(
                &[Step::Flip(0, 0), Step::Flip(2, 0)],
                0,
                [BROKEN, SEEN, BROKEN],
            ),
            // The block itself is readable.
            lost_write(
                &[Step::Blind(1, 0), Step::Flip(2, 0)],
                0,
                [SEEN, BLIND, BROKEN],
            ),
            lost_write(&[Step::Pull(0), Step::Flip(1, 0)], 0, [BLIND, BROKEN, SEEN]),
            // Plans to lose the writes are not used up.
            lost_write(
                &[
                    Step::Blind(0, 0),
                    Step::Blind(1, 0),
                    Step::Lose(0, 0),
                    Step::Lose(2, 0),
                ],
                0,
                [BLIND, BLIND, SEEN],
            ),
        ],
    )
}

#[test]
fn writes_of_lost_blocks_of_the_greatest_version(rt: HostRuntime) -> Result<(), Fail> {
    late_writes(
        &rt,
        rt.alloc(),
        &[
            // The version is mirrored by readable parity.
            lost_write(LOST_2, 2, [BLIND, SEEN, BLIND]),
            lost_write(
                &[Step::Flip(0, 1), Step::Flip(2, 1)],
                2,
                [BROKEN, SEEN, BROKEN],
            ),
            lost_write(&[Step::Pull(0), Step::Blind(2, 1)], 2, [BLIND, SEEN, BLIND]),
            // The version is that of the readable block.
            lost_write(
                &[Step::Blind(1, 1), Step::Blind(2, 1)],
                2,
                [SEEN, BLIND, BLIND],
            ),
            // Neither can be read.
            lost_write(
                &[Step::Blind(0, 1), Step::Blind(1, 1)],
                2,
                [BLIND, BLIND, SEEN],
            ),
        ],
    )
}

#[test]
fn writes_past_the_greatest_version_of_the_block(rt: HostRuntime) -> Result<(), Fail> {
    late_writes(
        &rt,
        rt.alloc(),
        &[
            LateWrite {
                scene: after(WHOLE),
                address: 2,
                refusal: Refusal::VersionLimit,
                quick: [SEEN, SEEN, UNSEEN],
                seen: [SEEN, SEEN, SEEN],
            },
            LateWrite {
                scene: after(&[Step::Blind(2, 1)]),
                address: 2,
                refusal: Refusal::VersionLimit,
                quick: [SEEN, SEEN, UNSEEN],
                seen: [SEEN, SEEN, BLIND],
            },
            greatest_write(after(&[Step::Blind(1, 1)]), [SEEN, BLIND, SEEN]),
            greatest_write(after(&[Step::Pull(1)]), [SEEN, BLIND, SEEN]),
            // Parity is behind.
            greatest_write(
                Scene {
                    block: TOP,
                    mirrored: 7,
                    steps: WHOLE,
                },
                [SEEN, BEHIND, SEEN],
            ),
        ],
    )
}

#[test]
fn writes_past_the_greatest_version_mirrored(rt: HostRuntime) -> Result<(), Fail> {
    late_writes(
        &rt,
        rt.alloc(),
        &[
            greatest_write(after(&[Step::Blind(0, 1)]), [BLIND, SEEN, SEEN]),
            greatest_write(after(&[Step::Flip(0, 1)]), [BROKEN, SEEN, SEEN]),
            greatest_write(after(&[Step::Pull(0)]), [BLIND, SEEN, SEEN]),
            // The block is behind.
            greatest_write(
                Scene {
                    block: 7,
                    mirrored: TOP,
                    steps: WHOLE,
                },
                [BEHIND, SEEN, SEEN],
            ),
        ],
    )
}

// A write raises the version to the greatest; the next one is refused.
#[test]
fn a_write_up_to_the_greatest_version(rt: HostRuntime) -> Result<(), Fail> {
    let below = Scene {
        block: TOP - 1,
        mirrored: TOP - 1,
        steps: &[Step::Write(2)],
    };
    late_writes(
        &rt,
        rt.alloc(),
        &[LateWrite {
            scene: below,
            address: 2,
            refusal: Refusal::VersionLimit,
            quick: [SEEN, SEEN, UNSEEN],
            seen: [SEEN, SEEN, SEEN],
        }],
    )
}
