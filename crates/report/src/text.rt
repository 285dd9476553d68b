// Reports as text.
use crate::shapes::{Advice, CardTotals, StripeReport, StripeTotals};
use crate::totals::letter;
use std::fmt;
use stripe::Finding;

fn write_lead<W: fmt::Write>(finding: &Finding, f: &mut fmt::Formatter<W>) -> fmt::Result {
    match finding.lead {
        Some(lead) => write!(f, "{lead}"),
        None => f.write_str("-"),
    }
}

// One line: the stripe, its parity slot, the mask, and for each slot the letter of its condition and its lead, or '-'.
impl fmt::Display for StripeReport {
    fn fmt<W: fmt::Write>(&self, f: &mut fmt::Formatter<W>) -> fmt::Result {
        write!(
            f,
            "stripe {} parity {} mask {} causes ",
            self.stripe, self.parity, self.mask
        )?;
        let cards = self.cards as usize;
        for finding in self.findings.iter().take(cards) {
            f.write_char(letter(finding.condition))?;
        }
        f.write_str(" leads ")?;
        for (slot, finding) in self.findings.iter().take(cards).enumerate() {
            if slot > 0 {
                f.write_str(",")?;
            }
            write_lead(finding, f)?;
        }
        Ok(())
    }
}

impl fmt::Display for CardTotals {
    fn fmt<W: fmt::Write>(&self, f: &mut fmt::Formatter<W>) -> fmt::Result {
        write!(
            f,
            "readable {} blind {} broken {} foreign {} behind {}",
            self.readable, self.blind, self.broken, self.foreign, self.behind
        )
    }
}

impl fmt::Display for StripeTotals {
    fn fmt<W: fmt::Write>(&self, f: &mut fmt::Formatter<W>) -> fmt::Result {
        write!(
            f,
            "clean {} one bad block {} lost {}",
            self.clean, self.single, self.lost
        )
    }
}

impl fmt::Display for Advice {
    fn fmt<W: fmt::Write>(&self, f: &mut fmt::Formatter<W>) -> fmt::Result {
        match self {
            Advice::Leave => f.write_str("nothing to do"),
            Advice::CheckIdentity => f.write_str(
                "check that the right card is in this slot; blocks of another place or array were found",
            ),
            Advice::CleanContacts => f.write_str(
                "clean the contacts and read the card again; if blocks stay blind, pull it, fit a new card and rebuild",
            ),
            Advice::WatchForDecay => f.write_str(
                "scrub; replace the card if broken blocks come back",
            ),
            Advice::ScrubAndWatch => f.write_str(
                "scrub; the card kept old blocks and said that it had written: replace it if this comes back",
            ),
        }
    }
}
