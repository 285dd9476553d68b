// Leads, the mask, and what the number of its ones decides.
ghost use Rattle.std.specs.Prelude.{◌≡◌, ℕ, ◌<◌, ◌≤◌, pos, ◌-ℤ◌, nat_lt};
ghost use Rattle.std.specs.List.{list_any, range_with_len};
ghost use Rattle.stripe.specs.View.{seen_in};
ghost use Rattle.stripe.specs.Findings.{lead_at};
ghost use Rattle.stripe.specs.Judge.{lags_at, leads_at, any_lead, parity_bad, bad_role, mask_number, decision};

use crate::shapes::{Decision, Stripe};
use block::{Frame, Role, Spot, Verdict, version};

// The lead of a version over the one that parity mirrors.
pub fn lead(own: u32, mirrored: u32) -> i64
    ensures { result ≡ pos own -ℤ pos mirrored }
{
    i64::from(own) - i64::from(mirrored)
}

// The lead of data block j, if it and parity are readable.
pub fn lead_at(block: &Verdict, parity: &Verdict, j: u32) -> Option<i64>
    requires { j < 7 }
    ensures { result ≡ lead_at block.now parity.now j }
{
    match (block, parity) {
        (Ok(b), Ok(p)) => Some(lead(version(b, 0), version(p, j))),
        _ => None,
    }
}

// A negative lead: the data block is behind.
fn is_behind(own: u32, mirrored: u32) -> bool
    ensures { result ≡ nat_lt own mirrored }
{
    lead(own, mirrored) < 0
}

// A positive lead: it puts the parity block behind.
fn is_ahead(own: u32, mirrored: u32) -> bool
    ensures { result ≡ nat_lt mirrored own }
{
    lead(own, mirrored) > 0
}

fn lags(block: &Verdict, parity: &Verdict, j: u32) -> bool
    requires { j < 7 }
    ensures { result ≡ lags_at block.now parity.now j }
{
    match (block, parity) {
        (Err(_), _) => true,
        (Ok(_), Err(_)) => false,
        (Ok(b), Ok(p)) => is_behind(version(b, 0), version(p, j)),
    }
}

fn leads(block: &Verdict, p: &[u8; 128], j: u32) -> bool
    requires { j < 7 }
    ensures { result ≡ leads_at block.now p.now j }
{
    block
        .as_ref()
        .is_ok_and(|b| is_ahead(version(b, 0), version(p, j)))
}

impl Stripe {
    // The verdict on the data block of an index.
    pub fn data_at(&self, j: u32) -> &Verdict
        requires { j < 7 }
        ensures { result.now ≡ seen_in self.now (Role.Data j) }
    {
        &self.data[j as usize]
    }

    // The verdict on a block.
    pub fn at(&self, spot: Spot) -> &Verdict
        ensures { result.now ≡ seen_in self.now spot.role }
    {
        match spot.role {
            Role::Parity => &self.parity,
            Role::Data(j) => self.data_at(j),
        }
    }

    fn any_lead(&self, p: &[u8; 128], width: u32) -> bool
        requires { width ≤ 7 }
        ensures { result ≡ list_any (λ j. leads_at (seen_in self.now (Role.Data j)) p.now j) (range_with_len 0 width) }
    {
        (0..width).any(|j| leads(self.data_at(j), p, j))
    }

    fn parity_bad(&self, width: u32) -> bool
        requires { width ≤ 7 }
        ensures { result ≡ parity_bad self.now.parity (seen_in self.now) width }
    {
        match &self.parity {
            Ok(p) => self.any_lead(p, width),
            Err(_) => true,
        }
    }

    // Whether a block is blind, broken, foreign or behind.
    pub fn is_bad(&self, spot: Spot) -> bool
        ensures { result ≡ bad_role spot.frame.width (seen_in self.now) spot.role }
    {
        match spot.role {
            Role::Parity => self.parity_bad(spot.frame.width),
            Role::Data(j) => lags(self.data_at(j), &self.parity, j),
        }
    }

    // The mask of stripe s: bit c is set if the block in slot c is bad.
    pub fn mask(&self, frame: Frame, s: u32) -> u8
        ensures { result ≡ mask_number frame.width s (seen_in self.now) }
    {
        let mut mask = 0u8;
        // Slots are in no list here: c is a slot's number.
        for c in 0..frame.width + 1 {
            if self.is_bad(frame.spot_at(s, c)) {
                mask |= 1u8 << c;
            }
        }
        mask
    }

    // No bad block is clean, a single one can be mended, more are lost.
    pub fn decide(&self, frame: Frame, s: u32) -> Decision
        ensures is { result ≡ decision frame.width s (seen_in self.now) }
        ensures placed { (j : ℕ) → result ≡ Decision.Only (Role.Data j) → j < frame.width }
    {
        let mask = self.mask(frame, s);
        match mask.count_ones() {
            0 => Decision::Clean,
            1 => Decision::Only(frame.role_at(s, mask.trailing_zeros())),
            _ => Decision::Lost,
        }
    }
}
