// Plays the calls of a script on an array over a fault layer over an image.
ghost use Rattle.std.specs.Prelude.{◌≡◌, ◌≤◌, OnOk};

use crate::answers::{Answers, rebuild_words, refusal_word, scrub_words};
use crate::calls::{
    ArrayCall, Call, Calls, JobCall, LONGEST, LayerCall, Length, LookWords, ReadWords, WriteWords,
};
use array::{Array, RebuildJob, show};
use block::HandedBack;
use checksum::Checksum;
use faults::FaultLayer;
use image::{Image, MakeError};
use runs::Source;
use shelf::{ReadableShelf, Sight, WritableShelf};
use std::alloc::Global;
use std::array::from_fn;
use stripe::{Finding, SlotState, survey};

// What buffers are filled with before they are handed in.
const FILL: u8 = 170;

// What stands for want of memory.
const NO_MEMORY: u32 = 255;

// What stands for a job that is not in hand.
const NO_JOB: u32 = u32::MAX;

// How the array of a script begins.
#[derive(Clone, Copy)]
pub(crate) enum Begin {
    Open,
    Format,
}

// How a script begins.
#[derive(Clone, Copy)]
pub(crate) struct Start<'a> {
    pub(crate) cards: u32,
    pub(crate) blocks: u32,
    pub(crate) tag: u32,
    pub(crate) image: Option<&'a [u8]>,
    pub(crate) begin: Begin,
}

type Cards<C> = Array<FaultLayer<Image>, C>;

// An array, the job in hand and the findings, which go on from call to call.
struct Player<C> {
    array: Cards<C>,
    job: Option<RebuildJob>,
    findings: [Finding; 8],
}

fn blank_findings() -> [Finding; 8] {
    from_fn(|slot| Finding {
        slot: slot as u32,
        ..Finding::default()
    })
}

fn source_word(source: Source) -> u32 {
    match source {
        Source::Found => 0,
        Source::Rebuilt => 1,
    }
}

fn sight_word(sight: Sight) -> u32 {
    match sight {
        Sight::Present => 0,
        Sight::Blind => 1,
    }
}

fn state_words(state: SlotState) -> [u32; 2] {
    match state {
        SlotState::In => [0, 0],
        SlotState::Out => [1, 0],
        SlotState::Filling(n) => [2, n],
    }
}

fn error_word(error: MakeError) -> u32 {
    match error {
        MakeError::Refused(refusal) => refusal_word(Some(refusal)),
        MakeError::NoMemory => NO_MEMORY,
    }
}

// What show gives of the buffer named.
fn answer_show(source: Source, found: &[u8], rebuilt: &[u8], out: &mut Answers) {
    match show(source, found, rebuilt) {
        Ok(payload) => {
            out.outcome(None);
            out.bytes(payload);
        }
        Err(refusal) => out.outcome(Some(refusal)),
    }
}

fn play_layer_read(
    layer: &FaultLayer<Image>,
    slot: u32,
    block: u32,
    length: Length,
    out: &mut Answers,
) {
    let mut row = [FILL; LONGEST];
    let seen = length.of(&mut row);
    let answer = layer.read(slot, block, seen);
    out.answer(answer.map(|sight| [sight_word(sight)]));
    out.bytes(seen);
}

// Gives up a job, if there is one.
fn let_go<C: Checksum>(array: &mut Cards<C>, job: Option<RebuildJob>, out: &mut Answers) {
    if let Some(held) = job {
        out.outcome(array.give_up(held).err());
    }
}

impl<C: Checksum> Player<C> {
    // With no job in hand, and no finding yet.
    fn new(array: Cards<C>) -> Player<C> {
        Player {
            array,
            job: None,
            findings: blank_findings(),
        }
    }

    // Takes a job in hand, where none is.
    fn hold(&mut self, job: RebuildJob)
        requires { self.old.job ≡ None }
    {
        match self.job.replace(job) {
            None => {}
            Some(_) => unreachable!(),
        }
    }

    fn read(&mut self, words: ReadWords, out: &mut Answers) {
        let mut first = [FILL; LONGEST];
        let mut second = [FILL; LONGEST];
        let found = words.found.of(&mut first);
        let rebuilt = words.rebuilt.of(&mut second);
        let answer = self.array.read(
            words.address,
            words.owner,
            &words.switch,
            found,
            rebuilt,
            &mut self.findings,
        );
        out.answer(answer.map(|read| [source_word(read.source), read.looks]));
        out.bytes(found);
        out.bytes(rebuilt);
        out.findings(&self.findings);
        answer_show(Source::Found, found, rebuilt, out);
        answer_show(Source::Rebuilt, found, rebuilt, out);
    }

    fn write(&mut self, words: WriteWords, out: &mut Answers) {
        let answer = self.array.write(
            words.address,
            words.owner,
            words.payload,
            words.way,
            &mut self.findings,
        );
        out.answer(answer.map(|written| [written.looks]));
        out.findings(&self.findings);
    }

    fn scrub(&mut self, stripes: u32, out: &mut Answers) {
        let answer = self.array.scrub(stripes, &mut self.findings);
        out.answer(answer.map(scrub_words));
        out.findings(&self.findings);
    }

    fn look(&mut self, words: LookWords, out: &mut Answers) {
        let mut row = [FILL; LONGEST];
        let seen = words.length.of(&mut row);
        let mut switch = words.switch;
        let answer = self
            .array
            .look(words.first, words.count, words.owner, &mut switch, seen);
        out.answer(answer.map(|look| [look.read, refusal_word(look.stopped)]));
        out.bytes(seen);
        out.flag(switch.mending);
    }

    fn fit(&mut self, slot: u32, out: &mut Answers) {
        let_go(&mut self.array, self.job.take(), out);
        match self.array.fit(slot) {
            Ok(fresh) => {
                out.outcome(None);
                self.hold(fresh);
            }
            Err(refusal) => out.outcome(Some(refusal)),
        }
    }

    fn rebuild(&mut self, stripes: u32, out: &mut Answers) {
        match &self.job {
            None => out.word(NO_JOB),
            Some(held) => out.answer(self.array.rebuild(held, stripes).map(rebuild_words)),
        }
    }

    fn finish(&mut self, out: &mut Answers) {
        let Some(held) = self.job.take() else {
            out.word(NO_JOB);
            return;
        };
        match self.array.finish(held) {
            Ok(()) => out.outcome(None),
            Err(HandedBack { refusal, value }) => {
                out.outcome(Some(refusal));
                self.hold(value);
            }
        }
    }

    fn give_up(&mut self, out: &mut Answers) {
        match self.job.take() {
            None => out.word(NO_JOB),
            Some(held) => out.outcome(self.array.give_up(held).err()),
        }
    }

    fn play_on_array(&mut self, call: ArrayCall, out: &mut Answers) {
        match call {
            ArrayCall::Read(words) => self.read(words, out),
            ArrayCall::Write(words) => self.write(words, out),
            ArrayCall::Scrub(stripes) => self.scrub(stripes, out),
            ArrayCall::Look(words) => self.look(words, out),
            ArrayCall::Pull(slot) => out.outcome(self.array.pull(slot).err()),
            ArrayCall::Lay(slot, block, plan) => {
                out.outcome(self.array.lay(slot, block, plan).err())
            }
            ArrayCall::Blind(slot, block) => out.outcome(self.array.blind(slot, block).err()),
            ArrayCall::Flip(slot, block, index, mask) => {
                out.outcome(self.array.flip(slot, block, index, mask).err())
            }
            ArrayCall::Tally => out.word(self.array.tally()),
            ArrayCall::SlotState(slot) => out.answer(self.array.slot_state(slot).map(state_words)),
        }
    }

    fn play_on_job(&mut self, call: JobCall, out: &mut Answers) {
        match call {
            JobCall::Fit(slot) => self.fit(slot, out),
            JobCall::Rebuild(stripes) => self.rebuild(stripes, out),
            JobCall::Finish => self.finish(out),
            JobCall::GiveUp => self.give_up(out),
        }
    }

    // The array is closed for the call, and opened again over the same layer.
    fn play_on_layer(mut self, tag: u32, call: LayerCall, out: &mut Answers) -> Player<C>
        requires { 1 ≤ tag }
    {
        let mut layer = self.array.close();
        match call {
            LayerCall::Reopen => out.outcome(None),
            LayerCall::Read(slot, block, length) => {
                play_layer_read(&layer, slot, block, length, out)
            }
            LayerCall::Write(slot, block, bytes) => {
                out.outcome(layer.write(slot, block, bytes).err())
            }
        }
        self.array = Array::open(layer, tag).unwrap();
        self
    }

    // One call.
    fn play(mut self, tag: u32, call: Call, out: &mut Answers) -> Player<C>
        requires { 1 ≤ tag }
    {
        match call {
            Call::Array(call) => self.play_on_array(call, out),
            Call::Job(call) => self.play_on_job(call, out),
            Call::Layer(call) => return self.play_on_layer(tag, call, out),
        }
        self
    }

    // The calls of a script, up to the first that is not all there.
    fn play_all(mut self, tag: u32, calls: Calls, out: &mut Answers) -> Player<C>
        requires { 1 ≤ tag }
    {
        for call in calls {
            self = self.play(tag, call, out);
        }
        self
    }

    // Gives up the job in hand, if there is one, and hands back the layer.
    fn close(self, out: &mut Answers) -> FaultLayer<Image> {
        let Player {
            mut array,
            job,
            findings: _,
        } = self;
        let_go(&mut array, job, out);
        array.close()
    }
}

// The array over a layer, opened or formatted.
fn begun<C: Checksum>(
    layer: FaultLayer<Image>,
    start: Start,
) -> Result<Cards<C>, HandedBack<FaultLayer<Image>>>
    ensures { OnOk result (1 ≤ start.entry.tag) }
{
    match start.begin {
        Begin::Open => Array::open(layer, start.tag),
        Begin::Format => Array::format(layer, start.tag),
    }
}

// Plays the calls on an array over the layer, which is handed back.
fn play_over<C: Checksum>(
    layer: FaultLayer<Image>,
    start: Start,
    calls: Calls,
    out: &mut Answers,
) -> FaultLayer<Image> {
    match begun::<C>(layer, start) {
        Ok(array) => {
            out.outcome(None);
            let player = Player::new(array).play_all(start.tag, calls, out);
            player.close(out)
        }
        Err(HandedBack { refusal, value }) => {
            out.outcome(Some(refusal));
            value
        }
    }
}

// The closing part, once the array is closed.
fn close_layer<C: Checksum>(heap: Global, layer: FaultLayer<Image>, tag: u32, out: &mut Answers) {
    out.word(layer.rows_used());
    let image = layer.into_inner();
    match vec![in heap; FILL; image.block_count() as usize] {
        Ok(mut masks) => {
            out.outcome(survey::<_, C>(&image.view(), tag, masks.as_mut_slice()).err());
            out.bytes(masks.as_slice());
        }
        Err(_) => out.word(NO_MEMORY),
    }
    out.bytes(image.into_bytes().as_slice());
}

// The image of a script.
fn image_of(heap: Global, start: Start) -> Result<Image, MakeError> {
    match start.image {
        Some(bytes) => Image::open(start.cards, start.blocks, bytes.to_vec(heap)?).map_err(
            |back| MakeError::from(back.refusal),
        ),
        None => Image::zero(heap, start.cards, start.blocks),
    }
}

// Makes an image, a fault layer and an array, plays the calls, and tells what they answer.
pub(crate) fn replay<C: Checksum>(heap: Global, start: Start, calls: Calls, out: &mut Answers) {
    match image_of(heap, start) {
        Ok(image) => {
            out.outcome(None);
            let layer = play_over::<C>(FaultLayer::over(image), start, calls, out);
            close_layer::<C>(heap, layer, start.tag, out);
        }
        Err(error) => out.word(error_word(error)),
    }
}
