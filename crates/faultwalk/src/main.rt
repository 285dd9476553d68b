// Shows each fault of the fault layer once, over an image of three cards with three blocks each.
#![tactic(auto)]

use anyhow::anyhow;
use block::Refusal;
use faults::{FaultLayer, Plan};
use image::Image;
use shelf::{ReadableShelf, Sight, WritableShelf};

// What a place of card 0 holds: its first and its last byte, or that it is blind.
fn print_place(rt: &HostRuntime, layer: &FaultLayer<Image>, block: u32) -> anyhow::Result<()> {
    let mut bytes = [0u8; 128];
    match layer.read(0, block, &mut bytes) {
        Ok(Sight::Present) => print!(rt; " [{}..{}]", bytes[0], bytes[127])?,
        Ok(Sight::Blind) => print!(rt; " [blind]")?,
        Err(_) => print!(rt; " [none]")?,
    }
    Ok(())
}

fn print_card(rt: &HostRuntime, layer: &FaultLayer<Image>, told: &str) -> anyhow::Result<()> {
    print!(rt; "{told}:")?;
    for block in 0..3u32 {
        print_place(rt, layer, block)?;
    }
    println!(rt; " rows {}", layer.rows_used())?;
    Ok(())
}

fn print_answer(rt: &HostRuntime, answer: Result<(), Refusal>) -> anyhow::Result<()> {
    if let Err(refusal) = answer {
        println!(rt; "refused by {refusal}")?;
    }
    Ok(())
}

// Lays a plan for block 0 of card 0 and writes there.
fn show_plan(
    rt: &HostRuntime,
    layer: &mut FaultLayer<Image>,
    told: &str,
    plan: Plan,
    byte: u8,
) -> anyhow::Result<()> {
    let laid = layer.lay(0, 0, plan);
    print_answer(rt, laid)?;
    let written = layer.write(0, 0, &[byte; 128]);
    print_answer(rt, written)?;
    print_card(rt, layer, told)
}

fn run(rt: &HostRuntime) -> anyhow::Result<()> {
    let Ok(image) = Image::zero(rt.alloc(), 3, 3) else {
        return Err(anyhow!("no memory for the image"));
    };
    let mut layer = FaultLayer::over(image);
    println!(rt;
        "blocks 0 to 2 of card 0, by first and last byte; each line writes another byte to block 0"
    )?;
    print_card(rt, &layer, "before")?;
    let written = layer.write(0, 0, &[1; 128]);
    print_answer(rt, written)?;
    print_card(rt, &layer, "a write of 1 with no plan")?;
    show_plan(rt, &mut layer, "a write of 2 that is lost", Plan::Lose, 2)?;
    show_plan(
        rt,
        &mut layer,
        "a write of 3 torn after 100 bytes",
        Plan::Tear(100),
        3,
    )?;
    show_plan(
        rt,
        &mut layer,
        "a write of 4 that strays to block 2",
        Plan::Stray(2),
        4,
    )?;
    show_plan(
        rt,
        &mut layer,
        "a write of 5 that spoils its place",
        Plan::Spoil,
        5,
    )?;
    let cleared = layer.write(0, 0, &[6; 128]);
    print_answer(rt, cleared)?;
    print_card(rt, &layer, "a write of 6 with no plan")?;
    let blinded = layer.blind(0, 1);
    print_answer(rt, blinded)?;
    print_card(rt, &layer, "block 1 made blind")?;
    let flipped = layer.flip(0, 0, 127, 9);
    print_answer(rt, flipped)?;
    print_card(rt, &layer, "byte 127 of block 0 flipped by 9")?;
    let same = layer.lay(0, 0, Plan::Stray(0));
    print_answer(rt, same)?;
    print_card(rt, &layer, "a stray to the same block laid")
}

fn main(rt: HostRuntime) -> anyhow::Result<()> {
    run(&rt)
}
