// Surveys an image of the cards of a shelf: which blocks are blind, broken, foreign or behind, stripe by stripe.
#![tactic(auto)]

mod demo;

use anyhow::anyhow;
use block::Refusal;
use checksum::{Fletcher, Turning};
use image::ImageView;
use report::print_report;
use shelf::ReadableShelf;
use std::{env, fs};

#[derive(Drop)]
enum Sum {
    Fletcher,
    Turning,
}

// What the program is told: the numbers of cards and stripes, the tag and the checksum.
#[derive(Drop)]
struct Told {
    cards: u32,
    stripes: u32,
    tag: u32,
    sum: Sum,
}

const USAGE: &str =
    "usage: survey, or survey IMAGE CARDS STRIPES TAG SUM with SUM fletcher or turn and decimal numbers";

fn parse_sum(text: &str) -> anyhow::Result<Sum> {
    match text {
        "fletcher" => Ok(Sum::Fletcher),
        "turn" => Ok(Sum::Turning),
        _ => Err(anyhow!(USAGE)),
    }
}

fn parse_number(text: &str) -> anyhow::Result<u32> {
    text.parse::<u32>().map_err(|_| anyhow!(USAGE))
}

fn parse_told(cards: &str, stripes: &str, tag: &str, sum: &str) -> anyhow::Result<Told> {
    Ok(Told {
        cards: parse_number(cards)?,
        stripes: parse_number(stripes)?,
        tag: parse_number(tag)?,
        sum: parse_sum(sum)?,
    })
}

fn print_survey(rt: &HostRuntime, told: &Told, bytes: &[u8]) -> anyhow::Result<()> {
    let cards = told.cards;
    let stripes = told.stripes;
    let tag = told.tag;
    if tag == 0 {
        return Err(anyhow!("refused by {}: the tag is never 0", Refusal::Shape));
    }
    match ImageView::open(cards, stripes, bytes) {
        Ok(view) => match told.sum {
            Sum::Fletcher => {
                println!(rt; "cards {cards} stripes {stripes} tag {tag} sum fletcher")?;
                print_report::<HostRuntime, ImageView, Fletcher>(rt, &view, tag)
            }
            Sum::Turning => {
                println!(rt; "cards {cards} stripes {stripes} tag {tag} sum turn")?;
                print_report::<HostRuntime, ImageView, Turning>(rt, &view, tag)
            }
        },
        Err(refusal) => {
            let length = bytes.len();
            println!(rt;
                "refused by {refusal}: {length} bytes are no image of {cards} cards with {stripes} blocks each"
            )?;
            Err(anyhow!(
                "3 to 8 cards, 1 to 65536 blocks a card, 129 bytes a block, and each flag 0 or 1"
            ))
        }
    }
}

fn run(rt: &HostRuntime) -> anyhow::Result<()> {
    let words = env::args(rt)?.collect::<Vec<String>>(rt.alloc())?;
    match words.as_slice() {
        [] | [_] => demo::run(rt),
        [_, path, cards, stripes, tag, sum] => {
            let told = parse_told(cards.as_str(), stripes.as_str(), tag.as_str(), sum.as_str())?;
            let bytes = fs::read(rt, path.as_str()).map_err(|_| anyhow!(
                "the image file cannot be read"
            ))?;
            print_survey(rt, &told, bytes.as_slice())
        }
        _ => Err(anyhow!(USAGE)),
    }
}

fn main(rt: HostRuntime) -> anyhow::Result<()> {
    run(&rt)
}
