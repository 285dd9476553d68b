// A small shelf that the program makes itself: three cards with six blocks each, on which some blocks are then damaged.
ghost use Rattle.std.specs.Prelude.{◌≤◌};

use anyhow::anyhow;
use block::{Frame, Record, Role};
use checksum::Fletcher;
use image::{Image, ImageView};
use report::print_report;
use shelf::WritableShelf;

const CARDS: u32 = 3;

const STRIPES: u32 = 6;

const TAG: u32 = 2026;

// The payload byte and the owner of each block; those of parity are the XOR of the others.
fn content(role: Role) -> (u8, u32) {
    match role {
        Role::Parity => (1 ^ 2, 41 ^ 42),
        Role::Data(0) => (1, 41),
        Role::Data(_) => (2, 42),
    }
}

fn versions(role: Role, version: u32) -> [u32; 7] {
    match role {
        Role::Parity => [version, version, 0, 0, 0, 0, 0],
        Role::Data(_) => [version, 0, 0, 0, 0, 0, 0],
    }
}

// The block of a slot and stripe after so many writes.
fn block_at(frame: Frame, slot: u32, stripe: u32, version: u32) -> [u8; 128]
    requires { slot ≤ frame.width }
{
    let spot = frame.spot_at(stripe, slot);
    let (byte, owner) = content(spot.role);
    let kept = Record {
        payload: [byte; 80],
        owner,
    };
    spot.make_block::<Fletcher>(&kept, &versions(spot.role, version))
}

// Writes every place; slot 0 then keeps the old block of stripe 1, and gets the block of stripe 5 at stripe 4.
fn fill(image: &mut Image, frame: Frame) {
    for slot in 0..frame.width + 1 {
        for stripe in 0..STRIPES {
            let _ = image.write(slot, stripe, &block_at(frame, slot, stripe, 3));
        }
    }
    let _ = image.write(0, 1, &block_at(frame, 0, 1, 2));
    let _ = image.write(0, 4, &block_at(frame, 0, 5, 3));
}

fn set_byte(bytes: &mut Vec<u8>, at: usize, value: u8) {
    if let Some(byte) = bytes.get_mut(at) {
        *byte = value;
    }
}

// Slot 1 is blind at stripes 2 and 5; a byte of slot 2 is changed at stripes 3 and 5.
fn damage(bytes: &mut Vec<u8>) {
    let places = 3 * 6;
    set_byte(bytes, places * 128 + 6 + 2, 1);
    set_byte(bytes, places * 128 + 6 + 5, 1);
    set_byte(bytes, (2 * 6 + 3) * 128 + 7, 255);
    set_byte(bytes, (2 * 6 + 5) * 128 + 7, 255);
}

pub fn run(rt: &HostRuntime) -> anyhow::Result<()> {
    let Ok(frame) = Frame::new(CARDS, STRIPES, TAG) else {
        return Err(anyhow!("no such array"));
    };
    let Ok(mut image) = Image::zero(rt.alloc(), CARDS, STRIPES) else {
        return Err(anyhow!("no memory for the image"));
    };
    fill(&mut image, frame);
    let mut bytes = image.into_bytes();
    damage(&mut bytes);
    let Ok(view) = ImageView::open(CARDS, STRIPES, bytes.as_slice()) else {
        return Err(anyhow!("the image was refused"));
    };
    println!(rt;
        "A shelf of three cards, made here. Card 0 kept an old block at stripe 1 and got a stray write at stripe 4;"
    )?;
    println!(rt;
        "card 1 gives nothing at stripes 2 and 5; a byte of card 2 has changed at stripes 3 and 5."
    )?;
    println!(rt; "cards {CARDS} stripes {STRIPES} tag {TAG} sum fletcher")?;
    print_report::<HostRuntime, ImageView, Fletcher>(rt, &view, TAG)
}
