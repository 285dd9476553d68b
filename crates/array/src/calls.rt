// The calls that look at stripes: read, write, scrub, rebuild and look.
ghost use Rattle.std.specs.Prelude.{◌≡◌};
ghost use Rattle.block.specs.Judging.{setup};
ghost use Rattle.stripe.specs.View.{slots_in};
ghost use Rattle.runs.specs.Done.{ReadDone, WriteDone, ScrubDone, RebuildDone, LookDone};
ghost use Rattle.runs.specs.Looks.{look_call};
ghost use Rattle.runs.specs.Reads.{read_call};
ghost use Rattle.runs.specs.Scrubs.{scrub_answer, scrub_end};
ghost use Rattle.runs.specs.Slots.{rebuild_answer, rebuild_end};
ghost use Rattle.runs.specs.Writes.{write_call};

use crate::array::Array;
use crate::events::RebuildJob;
use crate::guard::{MendingOff, turn_off};
use block::Refusal;
use checksum::Checksum;
use reading::{look_call, read_call};
use runs::{LookAnswer, ReadAnswer, RebuildCounts, ScrubCounts, Switch, Way, WriteAnswer};
use scrubbing::{rebuild_call, scrub_call};
use shelf::{ReadableShelf, WritableShelf};
use stripe::Finding;
use writing::write_call;

impl<W: WritableShelf, C: Checksum> Array<W, C> {
    // Reads the block of an address for an owner into one of two buffers of 128 bytes, as found or rebuilt; the other is zero.
    // With the switch on, a stripe's only bad block is mended.
    pub fn read(
        &mut self,
        address: u32,
        owner: u32,
        switch: &Switch,
        found: &mut [u8],
        rebuilt: &mut [u8],
        findings: &mut [Finding; 8],
    ) -> Result<ReadAnswer, Refusal>
        ensures done { ReadDone (read_call (setup self.old.cards.frame C.MARK C.meaning) (W.holds self.old.cards.shelf) (slots_in self.old.cards.states) self.old.tally address owner switch.now.mending found.old rebuilt.old findings.old) (W.conduct self.old.cards.shelf) (W.conduct self.new.cards.shelf) result found.new rebuilt.new findings.new self.new.tally }
        ensures frame { self.new.cards.frame ≡ self.old.cards.frame }
        ensures states { self.new.cards.states ≡ self.old.cards.states }
        ensures cursor { self.new.cursor ≡ self.old.cursor }
    {
        read_call::<W, C>(
            &mut self.cards,
            &mut self.tally,
            address,
            owner,
            switch.mending,
            found,
            rebuilt,
            findings,
        )
    }

    // Writes 80 payload bytes for an owner at an address, either way. The data block is written first, then parity.
    pub fn write(
        &mut self,
        address: u32,
        owner: u32,
        payload: &[u8],
        way: Way,
        findings: &mut [Finding; 8],
    ) -> Result<WriteAnswer, Refusal>
        ensures done { WriteDone (write_call (setup self.old.cards.frame C.MARK C.meaning) (W.holds self.old.cards.shelf) (slots_in self.old.cards.states) address payload.now owner way findings.old) (W.conduct self.old.cards.shelf) (W.conduct self.new.cards.shelf) result findings.new }
        ensures frame { self.new.cards.frame ≡ self.old.cards.frame }
        ensures states { self.new.cards.states ≡ self.old.cards.states }
        ensures cursor { self.new.cursor ≡ self.old.cursor }
        ensures tally { self.new.tally ≡ self.old.tally }
    {
        write_call::<W, C>(&mut self.cards, address, owner, payload, way, findings)
    }

    // Looks at so many stripes from the cursor on, and mends each that has one bad block, unless its place takes no writes.
    // The findings are those of the last stripe.
    pub fn scrub(
        &mut self,
        stripes: u32,
        findings: &mut [Finding; 8],
    ) -> Result<ScrubCounts, Refusal>
        ensures answer { result ≡ scrub_answer (setup self.old.cards.frame C.MARK C.meaning) (W.conduct self.old.cards.shelf) (slots_in self.old.cards.states) self.old.cursor stripes findings.old }
        ensures done { ScrubDone (scrub_end (setup self.old.cards.frame C.MARK C.meaning) (W.conduct self.old.cards.shelf) (slots_in self.old.cards.states) self.old.cursor stripes findings.old) (W.conduct self.new.cards.shelf) self.new.cursor findings.new }
        ensures frame { self.new.cards.frame ≡ self.old.cards.frame }
        ensures states { self.new.cards.states ≡ self.old.cards.states }
        ensures tally { self.new.tally ≡ self.old.tally }
    {
        scrub_call::<W, C>(&mut self.cards, &mut self.cursor, stripes, findings)
    }

    // Rebuilds at most so many stripes of the job's slot, from where it stands.
    pub fn rebuild(&mut self, job: &RebuildJob, stripes: u32) -> Result<RebuildCounts, Refusal>
        ensures answer { result ≡ rebuild_answer (setup self.old.cards.frame C.MARK C.meaning) (W.conduct self.old.cards.shelf) (slots_in self.old.cards.states) job.now.slot stripes }
        ensures done { RebuildDone (rebuild_end (setup self.old.cards.frame C.MARK C.meaning) (W.conduct self.old.cards.shelf) (slots_in self.old.cards.states) job.now.slot stripes) (W.conduct self.new.cards.shelf) (slots_in self.new.cards.states) }
        ensures frame { self.new.cards.frame ≡ self.old.cards.frame }
        ensures cursor { self.new.cursor ≡ self.old.cursor }
        ensures tally { self.new.tally ≡ self.old.tally }
    {
        rebuild_call::<W, C>(&mut self.cards, job.slot(), stripes)
    }

    // Reads a stretch of addresses for one owner with mending off, 80 bytes each, up to the first block that is lost or
    // has another owner. The switch is afterwards as it was, on every way out.
    pub fn look(
        &mut self,
        first: u32,
        count: u32,
        owner: u32,
        switch: &mut Switch,
        out: &mut [u8],
    ) -> Result<LookAnswer, Refusal>
        ensures done { LookDone (look_call (setup self.old.cards.frame C.MARK C.meaning) (W.holds self.old.cards.shelf) (slots_in self.old.cards.states) self.old.tally first count owner out.old) result out.new self.new.tally }
        ensures switch { switch.new ≡ switch.old }
        ensures shelf { self.new.cards.shelf ≡ self.old.cards.shelf }
        ensures frame { self.new.cards.frame ≡ self.old.cards.frame }
        ensures states { self.new.cards.states ≡ self.old.cards.states }
        ensures cursor { self.new.cursor ≡ self.old.cursor }
    {
        let was = turn_off(switch);
        let _guard = MendingOff { switch, was };
        let answer = look_call::<W, C>(
            &self.cards.view(),
            &mut self.tally,
            first,
            count,
            owner,
            out,
        )?;
        Ok(answer)
    }
}
