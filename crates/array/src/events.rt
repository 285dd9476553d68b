// Slot events of an array: pull, fit, finish and give-up.
ghost use Rattle.std.specs.Prelude.{◌≡◌};
ghost use Rattle.block.specs.Judging.{setup};
ghost use Rattle.stripe.specs.View.{slots_in};
ghost use Rattle.runs.specs.Slots.{event_state, event_slots, answered};
ghost use Rattle.array.specs.Jobs.{job_of, finish_answer};

use crate::array::Array;
use block::{HandedBack, Refusal};
use checksum::Checksum;
use runs::Event;
use shelf::{ReadableShelf, WritableShelf};
use slots::turn_slot;

// The rebuild of a slot. It is ended by finish or give-up.
pub struct RebuildJob {
    slot: u32,
}

impl RebuildJob {
    // The slot that is rebuilt.
    pub fn slot(&self) -> u32
        ensures { result ≡ self.now.slot }
    {
        self.slot
    }
}

impl<W: WritableShelf, C: Checksum> Array<W, C> {
    // An event of a slot, on this shelf. A slot that the shelf has not is refused first.
    #[tactic(auto, unfolding(runs::specs::Slots::event_state))]
    fn turn(&mut self, slot: u32, event: Event) -> Result<(), Refusal>
        ensures answer { result ≡ answered tt (event_state (setup self.old.cards.frame C.MARK C.meaning) (slots_in self.old.cards.states) slot event) }
        ensures slots { slots_in self.new.cards.states ≡ event_slots (setup self.old.cards.frame C.MARK C.meaning) (slots_in self.old.cards.states) slot event }
        ensures shelf { self.new.cards.shelf ≡ self.old.cards.shelf }
        ensures frame { self.new.cards.frame ≡ self.old.cards.frame }
        ensures cursor { self.new.cursor ≡ self.old.cursor }
        ensures tally { self.new.tally ≡ self.old.tally }
    {
        let frame = self.cards.frame;
        if slot > frame.width {
            return Err(Refusal::Place);
        }
        turn_slot(&mut self.cards.states, frame, slot, event)
    }

    // Takes a card out, if every slot is in.
    pub fn pull(&mut self, slot: u32) -> Result<(), Refusal>
        ensures answer { result ≡ answered tt (event_state (setup self.old.cards.frame C.MARK C.meaning) (slots_in self.old.cards.states) slot Event.Pull) }
        ensures slots { slots_in self.new.cards.states ≡ event_slots (setup self.old.cards.frame C.MARK C.meaning) (slots_in self.old.cards.states) slot Event.Pull }
        ensures shelf { self.new.cards.shelf ≡ self.old.cards.shelf }
        ensures frame { self.new.cards.frame ≡ self.old.cards.frame }
        ensures cursor { self.new.cursor ≡ self.old.cursor }
        ensures tally { self.new.tally ≡ self.old.tally }
    {
        self.turn(slot, Event::Pull)
    }

    // Puts a card into a slot that is out, to be filled from block 0 on; answers the job.
    pub fn fit(&mut self, slot: u32) -> Result<RebuildJob, Refusal>
        ensures answer { result ≡ answered (job_of slot) (event_state (setup self.old.cards.frame C.MARK C.meaning) (slots_in self.old.cards.states) slot Event.Fit) }
        ensures slots { slots_in self.new.cards.states ≡ event_slots (setup self.old.cards.frame C.MARK C.meaning) (slots_in self.old.cards.states) slot Event.Fit }
        ensures shelf { self.new.cards.shelf ≡ self.old.cards.shelf }
        ensures frame { self.new.cards.frame ≡ self.old.cards.frame }
        ensures cursor { self.new.cursor ≡ self.old.cursor }
        ensures tally { self.new.tally ≡ self.old.tally }
    {
        self.turn(slot, Event::Fit)?;
        Ok(RebuildJob { slot })
    }

    // Ends a job whose slot is filled to the last block: the card is in. A refused finish hands the job back.
    pub fn finish(&mut self, job: RebuildJob) -> Result<(), HandedBack<RebuildJob>>
        ensures answer { result ≡ finish_answer tt job (event_state (setup self.old.cards.frame C.MARK C.meaning) (slots_in self.old.cards.states) job.slot Event.Finish) }
        ensures slots { slots_in self.new.cards.states ≡ event_slots (setup self.old.cards.frame C.MARK C.meaning) (slots_in self.old.cards.states) job.slot Event.Finish }
        ensures shelf { self.new.cards.shelf ≡ self.old.cards.shelf }
        ensures frame { self.new.cards.frame ≡ self.old.cards.frame }
        ensures cursor { self.new.cursor ≡ self.old.cursor }
        ensures tally { self.new.tally ≡ self.old.tally }
    {
        match self.turn(job.slot, Event::Finish) {
            Ok(()) => {
                let RebuildJob { slot: _ } = job;
                Ok(())
            }
            Err(refusal) => Err(HandedBack {
                refusal,
                value: job,
            }),
        }
    }

    // Ends a job, even where it is refused: the card is out.
    pub fn give_up(&mut self, job: RebuildJob) -> Result<(), Refusal>
        ensures answer { result ≡ answered tt (event_state (setup self.old.cards.frame C.MARK C.meaning) (slots_in self.old.cards.states) job.slot Event.GiveUp) }
        ensures slots { slots_in self.new.cards.states ≡ event_slots (setup self.old.cards.frame C.MARK C.meaning) (slots_in self.old.cards.states) job.slot Event.GiveUp }
        ensures shelf { self.new.cards.shelf ≡ self.old.cards.shelf }
        ensures frame { self.new.cards.frame ≡ self.old.cards.frame }
        ensures cursor { self.new.cursor ≡ self.old.cursor }
        ensures tally { self.new.tally ≡ self.old.tally }
    {
        let RebuildJob { slot } = job;
        self.turn(slot, Event::GiveUp)
    }
}
