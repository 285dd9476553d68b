// Surveys card images that another implementation made, with known damage; the expected lines are that implementation's.
#![tactic(auto)]

use anyhow::anyhow;
use checksum::{Checksum, Fletcher, Turning};
use image::ImageView;
use report::report_stripe;
use shelf::ReadableShelf;
use std::fs;

fn print_stripes<R: ReadableShelf, C: Checksum>(
    rt: &HostRuntime,
    shelf: &R,
    tag: u32,
    sum: &str,
) -> anyhow::Result<()> {
    let cards = shelf.card_count();
    let stripes = shelf.block_count();
    println!(rt; "cards {cards} stripes {stripes} tag {tag} sum {sum}")?;
    for stripe in 0..stripes {
        let Ok(report) = report_stripe::<R, C>(shelf, tag, stripe) else {
            return Err(anyhow!("refused"));
        };
        println!(rt; "{report}")?;
    }
    Ok(())
}

fn print_image<C: Checksum>(
    rt: &HostRuntime,
    path: &str,
    cards: u32,
    stripes: u32,
    tag: u32,
    sum: &str,
) -> anyhow::Result<()> {
    let bytes = fs::read(rt, path)?;
    let view = ImageView::open(cards, stripes, bytes.as_slice()).map_err(|_| anyhow!(
        "the image was refused"
    ))?;
    print_stripes::<ImageView, C>(rt, &view, tag, sum)
}

fn run(rt: &HostRuntime) -> anyhow::Result<()> {
    print_image::<Turning>(rt, "deck-three.img", 3, 12, 7, "turn")?;
    print_image::<Fletcher>(rt, "garage-five.img", 5, 10, 1346458187, "fletcher")?;
    print_image::<Fletcher>(rt, "tower-eight.img", 8, 9, 4294967295, "fletcher")
}

fn main(rt: HostRuntime) -> anyhow::Result<()> {
    run(&rt)
}
