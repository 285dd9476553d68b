// Totals over the stripes, and what follows for each card.
ghost use Rattle.std.specs.Prelude.{◌≡◌};
ghost use Rattle.report.specs.Totals.{one_more, no_blocks, counted, no_stripes, stripe_counted, advice_of, letter_of};

use crate::shapes::{Advice, CardTotals, StripeTotals};
use stripe::{Cause, Condition};

// One more, up to the greatest number of 32 bits.
fn one_more(n: u32) -> u32
    ensures { result ≡ one_more n }
{
    n.saturating_add(1)
}

impl CardTotals {
    // No block counted yet.
    pub fn none() -> CardTotals
        ensures { result ≡ no_blocks }
    {
        CardTotals::default()
    }

    // One more block in this condition; a place that was not looked at does not count.
    pub fn count(self, condition: Condition) -> CardTotals
        ensures { result ≡ counted self condition }
    {
        let mut totals = self;
        match condition {
            Condition::NotLooked => {}
            Condition::Readable => totals.readable = one_more(totals.readable),
            Condition::Bad(Cause::Blind) => totals.blind = one_more(totals.blind),
            Condition::Bad(Cause::Broken) => totals.broken = one_more(totals.broken),
            Condition::Bad(Cause::Foreign) => totals.foreign = one_more(totals.foreign),
            Condition::Bad(Cause::Behind) => totals.behind = one_more(totals.behind),
        }
        totals
    }

    // What to do next with such a card: the first of foreign, blind, broken and behind that was found.
    pub fn advice(self) -> Advice
        ensures { result ≡ advice_of self }
    {
        if self.foreign > 0 {
            Advice::CheckIdentity
        } else if self.blind > 0 {
            Advice::CleanContacts
        } else if self.broken > 0 {
            Advice::WatchForDecay
        } else if self.behind > 0 {
            Advice::ScrubAndWatch
        } else {
            Advice::Leave
        }
    }
}

impl StripeTotals {
    // No stripe counted yet.
    pub fn none() -> StripeTotals
        ensures { result ≡ no_stripes }
    {
        StripeTotals::default()
    }

    // One more stripe with this mask.
    pub fn count(self, mask: u8) -> StripeTotals
        ensures { result ≡ stripe_counted self mask }
    {
        let mut totals = self;
        match mask.count_ones() {
            0 => totals.clean = one_more(totals.clean),
            1 => totals.single = one_more(totals.single),
            _ => totals.lost = one_more(totals.lost),
        }
        totals
    }
}

// The letter of a condition in a report's line.
pub fn letter(condition: Condition) -> char
    ensures { result ≡ letter_of condition }
{
    match condition {
        Condition::NotLooked => ' ',
        Condition::Readable => '.',
        Condition::Bad(Cause::Blind) => 'b',
        Condition::Bad(Cause::Broken) => 'x',
        Condition::Bad(Cause::Foreign) => 'f',
        Condition::Bad(Cause::Behind) => 'v',
    }
}
