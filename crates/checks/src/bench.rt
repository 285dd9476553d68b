// A bench for calls that are refused: an array of three cards with two blocks each, and what is left of it after some calls.
//
// Addresses 0 and 1 lie in slots 0 and 1 of stripe 0, whose parity is in slot 2. Addresses 2 and 3 lie in slots 0 and 2 of
// stripe 1, whose parity is in slot 1. Their owners are 41 to 44, their payloads 1 to 4. All versions are 1, but for that of
// address 2 and the one that parity mirrors for it.
use array::Array;
use block::{Cell, Frame, Record, Refusal, Role};
use checksum::Fletcher;
use faults::{FaultLayer, Plan};
use image::Image;
use runs::{Switch, Way};
use shelf::{ReadableShelf, Sight, WritableShelf};
use std::alloc::Global;
use std::process::Abort;
use std::test::Fail;
use stripe::{Condition, Finding, Layer, SlotState};

pub type Bench = Array<FaultLayer<Image>, Fletcher>;

// The greatest version.
pub const TOP: u32 = 4294967295;

// Nothing happens to the bench before the call.
pub const WHOLE: &[Step] = &[];

// What happens to the bench before the call.
#[derive(Clone, Copy)]
pub enum Step {
    // The place of a slot and block is made blind.
    Blind(u32, u32),
    // A bit of the place is flipped.
    Flip(u32, u32),
    // The slot's card is taken out.
    Pull(u32),
    // An address is written.
    Write(u32),
    // A plan is laid that loses a write.
    Lose(u32, u32),
    // Plans are laid until the table is full.
    Full,
}

// The version of address 2, the one that parity mirrors for it, and what happens then.
#[derive(Clone, Copy)]
pub struct Scene<'a> {
    pub block: u32,
    pub mirrored: u32,
    pub steps: &'a [Step],
}

// A scene in which address 2 has the greatest version.
pub fn after(steps: &[Step]) -> Scene<'_> {
    Scene {
        block: TOP,
        mirrored: TOP,
        steps,
    }
}

// What is left of the bench: the image's bytes, the rows in use, what the layer shows of each place, the tally, the slots,
// and the stripe that a scrub looked at.
#[derive(Clone, Copy, PartialEq, Eq)]
struct Left {
    bytes: [u8; 774],
    rows: u32,
    cells: [Cell; 6],
    tally: u32,
    slots: [Option<SlotState>; 3],
    looked: Option<u32>,
}

fn record(byte: u8, owner: u32) -> Record {
    Record {
        payload: [byte; 80],
        owner,
    }
}

// The record of a block.
fn record_at(stripe: u32, role: Role) -> Record {
    match (stripe, role) {
        (0, Role::Parity) => record(1 ^ 2, 41 ^ 42),
        (0, Role::Data(0)) => record(1, 41),
        (0, Role::Data(_)) => record(2, 42),
        (_, Role::Parity) => record(3 ^ 4, 43 ^ 44),
        (_, Role::Data(0)) => record(3, 43),
        (_, Role::Data(_)) => record(4, 44),
    }
}

// The versions of a block.
fn versions_at(scene: Scene, stripe: u32, role: Role) -> [u32; 7] {
    match (stripe, role) {
        (0, Role::Parity) => [1, 1, 0, 0, 0, 0, 0],
        (_, Role::Parity) => [scene.mirrored, 1, 0, 0, 0, 0, 0],
        (1, Role::Data(0)) => [scene.block, 0, 0, 0, 0, 0, 0],
        (_, Role::Data(_)) => [1, 0, 0, 0, 0, 0, 0],
    }
}

// The image of a scene, all places written.
fn image_of(heap: Global, scene: Scene) -> Result<Image, Fail> {
    let frame = Frame::new(3, 2, 9)?;
    let mut image = Image::zero(heap, 3, 2)?;
    for slot in 0..frame.width + 1 {
        for stripe in 0..2u32 {
            let spot = frame.spot_at(stripe, slot);
            let kept = record_at(stripe, spot.role);
            let versions = versions_at(scene, stripe, spot.role);
            image.write(slot, stripe, &spot.make_block::<Fletcher>(&kept, &versions))?;
        }
    }
    Ok(image)
}

// What a shelf shows of a place; a place that it has not counts as blind.
pub fn cell_at<R: ReadableShelf>(shelf: &R, slot: u32, block: u32) -> Cell {
    let mut bytes = [0u8; 128];
    match shelf.read(slot, block, &mut bytes) {
        Ok(Sight::Present) => Some(bytes),
        Ok(Sight::Blind) | Err(_) => None,
    }
}

// What a shelf shows of each place of three cards with two blocks.
pub fn cells<R: ReadableShelf>(shelf: &R) -> [Cell; 6] {
    [
        cell_at(shelf, 0, 0),
        cell_at(shelf, 0, 1),
        cell_at(shelf, 1, 0),
        cell_at(shelf, 1, 1),
        cell_at(shelf, 2, 0),
        cell_at(shelf, 2, 1),
    ]
}

// The bytes of the bench's image.
pub fn bytes_of(image: Image) -> Result<[u8; 774], Fail> {
    let bytes = image.into_bytes();
    match bytes.as_slice().as_array::<774>() {
        Some(all) => Ok(*all),
        None => Err(Fail::new("an image of another length")),
    }
}

// The bytes of a scene's image.
pub fn bytes_at(heap: Global, scene: Scene) -> Result<[u8; 774], Fail> {
    bytes_of(image_of(heap, scene)?)
}

// An image with these bytes.
pub fn image_with(heap: Global, bytes: &[u8; 774]) -> Result<Image, Fail> {
    let all = bytes.to_vec(heap)?;
    Image::open(3, 2, all).map_err(|_| Fail::new("no image"))
}

// Findings as no call leaves them.
pub fn blank() -> [Finding; 8] {
    [Finding {
        slot: 77,
        block: 78,
        condition: Condition::Readable,
        layer: None,
        lead: Some(79),
        mended: true,
    }; 8]
}

// One read is tallied, and the cursor is at stripe 1. The cards are as before.
fn begin(array: &mut Bench) -> Result<(), Fail> {
    let mut found = [0u8; 128];
    let mut rebuilt = [0u8; 128];
    let mut rows = blank();
    array.blind(0, 0)?;
    array.read(
        0,
        41,
        &Switch { mending: true },
        &mut found,
        &mut rebuilt,
        &mut rows,
    )?;
    array.scrub(1, &mut rows)?;
    Ok(())
}

fn take(array: &mut Bench, step: Step) -> Result<(), Fail> {
    match step {
        Step::Blind(slot, block) => array.blind(slot, block)?,
        Step::Flip(slot, block) => array.flip(slot, block, 5, 1)?,
        Step::Pull(slot) => array.pull(slot)?,
        Step::Write(address) => {
            array.write(address, 43, &[9; 80], Way::Additive, &mut blank())?;
        }
        Step::Lose(slot, block) => array.lay(slot, block, Plan::Lose)?,
        Step::Full => {
            for _ in 0..32u32 {
                let _ = array.lay(2, 0, Plan::Lose);
            }
        }
    }
    Ok(())
}

// Takes the steps and then makes a call.
fn run<F: Fn(&mut Bench) -> Result<(), Fail>>(
    array: &mut Bench,
    steps: &[Step],
    call: &F,
) -> Result<(), Fail>
    requires { F.IsAlwaysCallable call.now }
{
    begin(array)?;
    for step in steps {
        take(array, *step)?;
    }
    call(array)
}

// Why a card cannot be fitted; a job that is given is given up.
pub fn fit_refusal(array: &mut Bench, slot: u32) -> Option<Refusal> {
    match array.fit(slot) {
        Ok(job) => {
            let _ = array.give_up(job);
            None
        }
        Err(refusal) => Some(refusal),
    }
}

fn slots(array: &Bench) -> [Option<SlotState>; 3] {
    [
        array.slot_state(0).ok(),
        array.slot_state(1).ok(),
        array.slot_state(2).ok(),
    ]
}

// What is left of a scene's bench after a call, and after a scrub of one stripe if one is wanted.
fn left_after<F: Fn(&mut Bench) -> Result<(), Fail>>(
    heap: Global,
    scene: Scene,
    call: &F,
    scrubbed: bool,
) -> Result<Left, Fail>
    requires { F.IsAlwaysCallable call.now }
{
    let layer = FaultLayer::over(image_of(heap, scene)?);
    let mut array = Bench::open(layer, 9).map_err(|_| Fail::new("no array"))?;
    let told = run(&mut array, scene.steps, call);
    let looked = if scrubbed {
        next_stripe(&mut array)
    } else {
        None
    };
    let tally = array.tally();
    let slots = slots(&array);
    let layer = array.close();
    told?;
    let rows = layer.rows_used();
    let cells = cells(&layer);
    let bytes = bytes_of(layer.into_inner())?;
    Ok(Left {
        bytes,
        rows,
        cells,
        tally,
        slots,
        looked,
    })
}

// The next stripe that a scrub looks at.
fn next_stripe(array: &mut Bench) -> Option<u32> {
    let mut rows = blank();
    array.scrub(1, &mut rows).ok()?;
    Some(rows[0].block)
}

// A call, which tells whether it was refused as it should be, changes nothing in a scene.
pub fn changes_nothing<R: Abort, F: Fn(&mut Bench) -> Result<(), Fail>>(
    rt: &R,
    heap: Global,
    scene: Scene,
    call: F,
) -> Result<(), Fail>
    requires { F.IsAlwaysCallable call }
{
    let nothing = |_: &mut Bench| Ok(());
    let before = left_after(heap, scene, &nothing, false)?;
    let then = left_after(heap, scene, &call, false)?;
    assert_eq!(rt; before.tally, 1);
    assert!(rt; before == then);
    let scrubbed = left_after(heap, scene, &call, true)?;
    assert_eq!(rt; scrubbed.looked, Some(1));
    Ok(())
}

fn layer_of(condition: Condition) -> Option<Layer> {
    match condition {
        Condition::Bad(cause) => Some(cause.layer()),
        Condition::NotLooked | Condition::Readable => None,
    }
}

// The findings name their slots and the stripe, say these conditions of the three slots with their layers, and no mending.
pub fn are_filled(rows: &[Finding; 8], stripe: u32, seen: [Condition; 3]) -> bool {
    rows.iter().enumerate().all(|(slot, row)| {
        let condition = seen.get(slot).copied().unwrap_or(Condition::NotLooked);
        row.slot == slot as u32
            && row.block == stripe
            && row.condition == condition
            && row.layer == layer_of(condition)
            && !row.mended
    })
}
