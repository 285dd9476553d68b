// One charging session of a car park, from plug to barrier, on five cards that sometimes lie.
#![tactic(auto)]

mod words;

use anyhow::anyhow;
use array::{Array, RebuildJob, show};
use block::HandedBack;
use checksum::{Checksum, Fletcher};
use faults::{FaultLayer, Plan};
use image::Image;
use runs::{ReadAnswer, Source, Switch, Way};
use shelf::{ReadableShelf, WritableShelf};
use stripe::Finding;
use words::{payload_of, print_findings, print_payload, refused};

type Cabinet = Array<FaultLayer<Image>, Fletcher>;

const CARDS: u32 = 5;

const BLOCKS: u32 = 8;

const TAG: u32 = 7301;

const BAY: u32 = 6;

const SESSION: u32 = 4711;

// The findings of a stripe before anything was looked at.
fn no_findings() -> [Finding; 8] {
    [Finding::default(); 8]
}

// Writes the record of the bay and tells what happened.
fn record(
    rt: &HostRuntime,
    cabinet: &mut Cabinet,
    told: &str,
    text: &[u8],
    way: Way,
) -> anyhow::Result<()> {
    let mut findings = no_findings();
    match cabinet.write(BAY, SESSION, &payload_of(text), way, &mut findings) {
        Ok(answer) => {
            println!(rt; "{told}: accepted after looking at {} places", answer.looks)?;
            print_findings(rt, &findings)
        }
        Err(refusal) => refused(rt, told, refusal),
    }
}

fn print_read(
    rt: &HostRuntime,
    told: &str,
    answer: ReadAnswer,
    found: &[u8],
    rebuilt: &[u8],
) -> anyhow::Result<()> {
    let how = match answer.source {
        Source::Found => "as found",
        Source::Rebuilt => "rebuilt from the other cards",
    };
    print!(rt; "{told}: {how}, {} places: ", answer.looks)?;
    match show(answer.source, found, rebuilt) {
        Ok(payload) => print_payload(rt, payload),
        Err(refusal) => refused(rt, told, refusal),
    }
}

// Reads the record of the bay and tells what came.
fn read(rt: &HostRuntime, cabinet: &mut Cabinet, told: &str, mending: bool) -> anyhow::Result<()> {
    let switch = Switch { mending };
    let mut found = [0u8; 128];
    let mut rebuilt = [0u8; 128];
    let mut findings = no_findings();
    match cabinet.read(
        BAY,
        SESSION,
        &switch,
        &mut found,
        &mut rebuilt,
        &mut findings,
    ) {
        Ok(answer) => print_read(rt, told, answer, &found, &rebuilt)?,
        Err(refusal) => refused(rt, told, refusal)?,
    }
    print_findings(rt, &findings)
}

fn scrub(rt: &HostRuntime, cabinet: &mut Cabinet) -> anyhow::Result<()> {
    let mut findings = no_findings();
    match cabinet.scrub(BLOCKS, &mut findings) {
        Ok(counts) => {
            println!(rt;
                "the weekly scrub: {} stripes, {} clean, {} mended, {} short, {} lost",
                counts.looked, counts.clean, counts.mended, counts.short, counts.lost
            )?;
            Ok(())
        }
        Err(refusal) => refused(rt, "the weekly scrub", refusal),
    }
}

// Rebuilds the card in two parts; a finish that comes too early hands the job back.
fn rebuild(rt: &HostRuntime, cabinet: &mut Cabinet, job: RebuildJob) -> anyhow::Result<()> {
    let first = cabinet.rebuild(&job, 3);
    match cabinet.finish(job) {
        Ok(()) => {
            println!(rt; "finished after three stripes")?;
            Ok(())
        }
        Err(
            HandedBack {
                refusal,
                value: kept,
            },
        ) => {
            let second = cabinet.rebuild(&kept, BLOCKS);
            let ended = match cabinet.finish(kept) {
                Ok(()) => true,
                Err(
                    HandedBack {
                        refusal: _,
                        value: left,
                    },
                ) => {
                    let _ = cabinet.give_up(left);
                    false
                }
            };
            if let Ok(counts) = first {
                println!(rt;
                    "rebuilt {} stripes of the new card, {} of them mended; a finish now is refused by {refusal}",
                    counts.moved, counts.mended
                )?;
            }
            if let Ok(counts) = second {
                println!(rt;
                    "rebuilt {} more, {} of them mended",
                    counts.moved, counts.mended
                )?;
            }
            println!(rt; "the new card is in: {ended}")?;
            Ok(())
        }
    }
}

// A card is taken out, read around, and a new one is filled.
fn change_card(rt: &HostRuntime, cabinet: &mut Cabinet, slot: u32) -> anyhow::Result<()> {
    match cabinet.pull(slot) {
        Ok(()) => println!(rt; "card {slot} is pulled")?,
        Err(refusal) => refused(rt, "pull", refusal)?,
    }
    read(rt, cabinet, "the barrier reads without that card", true)?;
    match cabinet.fit(slot) {
        Ok(job) => rebuild(rt, cabinet, job),
        Err(refusal) => refused(rt, "fit", refusal),
    }
}

fn session(rt: &HostRuntime, cabinet: &mut Cabinet) -> anyhow::Result<()> {
    record(
        rt,
        cabinet,
        "plugged in",
        b"bay 6: plugged in at 08:12, 0.0 kWh",
        Way::Subtractive,
    )?;
    record(
        rt,
        cabinet,
        "first reading",
        b"bay 6: charging at 09:00, 7.4 kWh",
        Way::Subtractive,
    )?;
    record(
        rt,
        cabinet,
        "second reading",
        b"bay 6: charging at 10:00, 16.6 kWh",
        Way::Additive,
    )?;
    match cabinet.lay(2, 1, Plan::Lose) {
        Ok(()) => println!(rt;
            "(card 2 will say that it has written the next record, and keep the old one)"
        )?,
        Err(refusal) => refused(rt, "plan", refusal)?,
    }
    record(
        rt,
        cabinet,
        "closing record",
        b"bay 6: closed at 10:31, 21.2 kWh",
        Way::Subtractive,
    )?;
    read(rt, cabinet, "the meter reads, mending off", false)?;
    scrub(rt, cabinet)?;
    read(rt, cabinet, "the barrier reads", true)?;
    change_card(rt, cabinet, 2)?;
    read(rt, cabinet, "the barrier reads again", true)?;
    println!(rt; "reads given rebuilt: {}", cabinet.tally())?;
    Ok(())
}

fn run(rt: &HostRuntime) -> anyhow::Result<()> {
    let Ok(image) = Image::zero(rt.alloc(), CARDS, BLOCKS) else {
        return Err(anyhow!("no memory for the image"));
    };
    let Ok(mut cabinet) = Cabinet::format(FaultLayer::over(image), TAG) else {
        return Err(anyhow!("the shelf was refused"));
    };
    let told = session(rt, &mut cabinet);
    let _cards = cabinet.close();
    told
}

fn main(rt: HostRuntime) -> anyhow::Result<()> {
    run(&rt)
}
