// The report of a whole shelf, printed.
use crate::shapes::{CardTotals, StripeReport, StripeTotals};
use crate::stripes::report_stripe;
use checksum::Checksum;
use shelf::ReadableShelf;

fn count_stripe(cards: &mut [CardTotals; 8], report: &StripeReport) {
    for (totals, finding) in cards.iter_mut().zip(&report.findings) {
        *totals = totals.count(finding.condition);
    }
}

fn print_cards<P: Print>(rt: &P, cards: &[CardTotals; 8], count: u32) -> anyhow::Result<()> {
    for (slot, totals) in cards.iter().take(count as usize).enumerate() {
        println!(rt; "card {slot}: {totals}: {}", totals.advice())?;
    }
    Ok(())
}

fn print_stripes<P: Print>(rt: &P, totals: &StripeTotals) -> anyhow::Result<()> {
    println!(rt; "stripes: {totals}")?;
    if totals.lost > 0 {
        println!(rt;
            "copy every card before anything is written: blocks of lost stripes cannot be mended"
        )?;
    } else if totals.single > 0 {
        println!(rt; "a scrub mends every stripe that has one bad block")?;
    }
    Ok(())
}

// Prints a line for each stripe of an array on a shelf, then totals for each card with what to do next, then totals over the stripes.
pub fn print_report<P: Print, R: ReadableShelf, C: Checksum>(
    rt: &P,
    shelf: &R,
    tag: u32,
) -> anyhow::Result<()> {
    let mut cards = [CardTotals::none(); 8];
    let mut stripes = StripeTotals::none();
    for stripe in 0..shelf.block_count() {
        match report_stripe::<R, C>(shelf, tag, stripe) {
            Ok(report) => {
                println!(rt; "{report}")?;
                count_stripe(&mut cards, &report);
                stripes = stripes.count(report.mask);
            }
            Err(refusal) => {
                println!(rt; "refused by {refusal}")?;
                return Ok(());
            }
        }
    }
    print_cards(rt, &cards, shelf.card_count())?;
    print_stripes(rt, &stripes)
}
