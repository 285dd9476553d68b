// The block that a place requires, and the judging of a block alone.
ghost use Rattle.std.specs.Prelude.{◌≡◌, ℕ, ◌+◌, ◌-◌, ◌<◌, ◌≤◌, Bool, List, length, ◌≢◌, ◌==◌, slice_index, slice_set};
ghost use Rattle.std.specs.List.{list_all, range_with_len};
ghost use Rattle.block.specs.Layout.{version_of};
ghost use Rattle.block.specs.Judging.{setup, kind_of, used_of, block_with, broken_by, marks_fit, native_block, judged, alone, RightSum};

use crate::codec::{seal, version};
use crate::shapes::{Cell, Defect, Fields, Record, Role, Verdict};
use crate::spot::Spot;
use checksum::{Checksum, be32};

// The versions from an index on are all 0.
fn unused_zero(block: &[u8; 128], used: u32) -> bool
    requires { used ≤ 7 }
    ensures { result ≡ list_all (λ k. version_of block.now k == 0) (range_with_len used (7 - used)) }
{
    (used..7).all(|k| version(block, k) == 0)
}

fn is_broken<C: Checksum>(block: &[u8; 128]) -> bool
    ensures { result ≡ broken_by C.meaning block.now }
{
    be32(block, 124) != C::sum(block)
}

impl Spot {
    // The byte that says on a card which kind of block it is.
    fn kind(self) -> u8
        ensures { result ≡ kind_of self.role }
    {
        match self.role {
            Role::Parity => 2,
            Role::Data(_) => 1,
        }
    }

    // How many of the seven versions are used.
    fn used(self) -> u32
        ensures { result ≡ used_of self.frame.width self.role }
    {
        match self.role {
            Role::Parity => self.frame.width,
            Role::Data(_) => 1,
        }
    }

    // The block that keeps a record, with these versions.
    pub fn make_block<C: Checksum>(self, kept: &Record, versions: &[u32; 7]) -> [u8; 128]
        ensures { result ≡ block_with (setup self.frame C.MARK C.meaning) self.stripe self.role kept.now.payload kept.now.owner versions.now }
    {
        let fields = Fields {
            payload: kept.payload,
            kind: self.kind(),
            mark: C::MARK,
            slot: self.slot() as u8,
            cards: (self.frame.width + 1) as u8,
            block: self.stripe,
            owner: kept.owner,
            versions: *versions,
            tag: self.frame.tag,
        };
        seal::<C>(&fields)
    }

    fn marks_fit(self, mark: u8, block: &[u8; 128]) -> bool
        ensures { result ≡ marks_fit self.frame.width mark self.stripe self.role block.now }
    {
        block[80] == self.kind()
            && block[81] == mark
            && block[82] as u32 == self.slot()
            && block[83] as u32 == self.frame.width + 1
    }

    fn is_native<C: Checksum>(self, block: &[u8; 128]) -> bool
        ensures { result ≡ native_block (setup self.frame C.MARK C.meaning) self.stripe self.role block.now }
    {
        self.marks_fit(C::MARK, block)
            && be32(block, 84) == self.stripe
            && be32(block, 120) == self.frame.tag
            && unused_zero(block, self.used())
    }

    // A block judged alone, for the place where this one lies.
    // A block with its right sum, any one byte of it changed to any other value, is judged broken.
    pub fn judge_block<C: Checksum>(self, block: &[u8; 128]) -> Verdict
        ensures is { result ≡ judged (setup self.frame C.MARK C.meaning) self.stripe self.role block.now }
        ensures one_byte { (was : List ℕ) (i v : ℕ) → RightSum C.meaning was → i < 128 → (slice_index was i ≢ v) → block.now ≡ slice_set was i v → result ≡ Err Defect.Broken }
    {
        if is_broken::<C>(block) {
            Err(Defect::Broken)
        } else if self.is_native::<C>(block) {
            Ok(*block)
        } else {
            Err(Defect::Foreign)
        }
    }

    // What is seen of a place, judged alone.
    pub fn judge<C: Checksum>(self, cell: &Cell) -> Verdict
        ensures { result ≡ alone (setup self.frame C.MARK C.meaning) self.stripe self.role cell.now }
    {
        match cell {
            None => Err(Defect::Blind),
            Some(block) => self.judge_block::<C>(block),
        }
    }
}
