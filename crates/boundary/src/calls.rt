// The calls of a script, read one after the other.
ghost use Rattle.std.specs.Prelude.{◌<◌, ◌≤◌, length, OnSome};
ghost use Rattle.std.specs.Iterator.{at_most};

use faults::Plan;
use runs::{Switch, Way};

// No buffer and no byte string of a call is longer than this.
pub(crate) const LONGEST: usize = 1024;

// The bytes of a script that are not yet read. It gives the calls, up to the first that is not all there.
#[derive(Drop)]
pub(crate) struct Calls<'a> {
    rest: &'a [u8],
}

// The length of a buffer to hand in.
#[derive(Clone, Copy)]
pub(crate) struct Length {
    bytes: usize,
    ghost short: { bytes ≤ 1024 },
}

impl Length {
    // So many of the bytes.
    pub(crate) fn of(self, bytes: &mut [u8; LONGEST]) -> &mut [u8] {
        &mut bytes[..self.bytes]
    }
}

// One call with its arguments.
#[derive(Drop)]
pub(crate) enum Call<'a> {
    Array(ArrayCall<'a>),
    Job(JobCall),
    Layer(LayerCall<'a>),
}

// A call on the array with no job.
#[derive(Clone, Copy)]
pub(crate) enum ArrayCall<'a> {
    Read(ReadWords),
    Write(WriteWords<'a>),
    Scrub(u32),
    Look(LookWords),
    Pull(u32),
    Lay(u32, u32, Plan),
    Blind(u32, u32),
    Flip(u32, u32, u32, u32),
    Tally,
    SlotState(u32),
}

// A call that begins or ends the job in hand, or works on it.
#[derive(Clone, Copy)]
pub(crate) enum JobCall {
    Fit(u32),
    Rebuild(u32),
    Finish,
    GiveUp,
}

// A call for which the array is closed, and opened again afterwards.
#[derive(Clone, Copy)]
pub(crate) enum LayerCall<'a> {
    Reopen,
    Read(u32, u32, Length),
    Write(u32, u32, &'a [u8]),
}

#[derive(Clone, Copy)]
pub(crate) struct ReadWords {
    pub(crate) address: u32,
    pub(crate) owner: u32,
    pub(crate) switch: Switch,
    pub(crate) found: Length,
    pub(crate) rebuilt: Length,
}

#[derive(Clone, Copy)]
pub(crate) struct WriteWords<'a> {
    pub(crate) address: u32,
    pub(crate) owner: u32,
    pub(crate) way: Way,
    pub(crate) payload: &'a [u8],
}

#[derive(Clone, Copy)]
pub(crate) struct LookWords {
    pub(crate) first: u32,
    pub(crate) count: u32,
    pub(crate) owner: u32,
    pub(crate) switch: Switch,
    pub(crate) length: Length,
}

impl<'a> Calls<'a> {
    pub(crate) fn of(bytes: &'a [u8]) -> Calls<'a> {
        Calls { rest: bytes }
    }

    // The next word, most significant byte first.
    fn word(&mut self) -> Option<u32>
        ensures left { length self.new.rest.now ≤ length self.old.rest.now }
        ensures some { OnSome result (length self.new.rest.now < length self.old.rest.now) }
    {
        let (word, rest) = self.rest.split_first_chunk::<4>()?;
        self.rest = rest;
        Some(u32::from_be_bytes(*word))
    }

    fn switch(&mut self) -> Option<Switch>
        ensures { length self.new.rest.now ≤ length self.old.rest.now }
    {
        Some(Switch {
            mending: self.word()? != 0,
        })
    }

    // A length, at most the longest.
    fn length(&mut self) -> Option<Length>
        ensures { length self.new.rest.now ≤ length self.old.rest.now }
    {
        Some(Length {
            bytes: (self.word()? as usize).min(LONGEST),
        })
    }

    // The next bytes after their number, if there are so many.
    fn counted(&mut self) -> Option<&'a [u8]>
        ensures { length self.new.rest.now ≤ length self.old.rest.now }
    {
        let length = self.length()?;
        self.rest.split_off(..length.bytes)
    }

    fn way(&mut self) -> Option<Way>
        ensures { length self.new.rest.now ≤ length self.old.rest.now }
    {
        Some(match self.word()? {
            0 => Way::Additive,
            _ => Way::Subtractive,
        })
    }

    fn plan(&mut self) -> Option<Plan>
        ensures { length self.new.rest.now ≤ length self.old.rest.now }
    {
        let kind = self.word()?;
        let number = self.word()?;
        Some(match kind {
            0 => Plan::Lose,
            1 => Plan::Tear(number),
            2 => Plan::Spoil,
            _ => Plan::Stray(number),
        })
    }

    fn read_words(&mut self) -> Option<ReadWords>
        ensures { length self.new.rest.now ≤ length self.old.rest.now }
    {
        Some(ReadWords {
            address: self.word()?,
            owner: self.word()?,
            switch: self.switch()?,
            found: self.length()?,
            rebuilt: self.length()?,
        })
    }

    fn write_words(&mut self) -> Option<WriteWords<'a>>
        ensures { length self.new.rest.now ≤ length self.old.rest.now }
    {
        Some(WriteWords {
            address: self.word()?,
            owner: self.word()?,
            way: self.way()?,
            payload: self.counted()?,
        })
    }

    fn look_words(&mut self) -> Option<LookWords>
        ensures { length self.new.rest.now ≤ length self.old.rest.now }
    {
        Some(LookWords {
            first: self.word()?,
            count: self.word()?,
            owner: self.word()?,
            switch: self.switch()?,
            length: self.length()?,
        })
    }

    // The call of a code, if there is one.
    fn call(&mut self, code: u32) -> Option<Call<'a>>
        ensures { length self.new.rest.now ≤ length self.old.rest.now }
    {
        Some(match code {
            1 => Call::Array(ArrayCall::Read(self.read_words()?)),
            2 => Call::Array(ArrayCall::Write(self.write_words()?)),
            3 => Call::Array(ArrayCall::Scrub(self.word()?)),
            4 => Call::Array(ArrayCall::Look(self.look_words()?)),
            5 => Call::Array(ArrayCall::Pull(self.word()?)),
            6 => Call::Job(JobCall::Fit(self.word()?)),
            7 => Call::Job(JobCall::Rebuild(self.word()?)),
            8 => Call::Job(JobCall::Finish),
            9 => Call::Job(JobCall::GiveUp),
            10 => Call::Array(ArrayCall::Lay(self.word()?, self.word()?, self.plan()?)),
            11 => Call::Array(ArrayCall::Blind(self.word()?, self.word()?)),
            12 => Call::Array(ArrayCall::Flip(
                self.word()?,
                self.word()?,
                self.word()?,
                self.word()?,
            )),
            13 => Call::Array(ArrayCall::Tally),
            14 => Call::Array(ArrayCall::SlotState(self.word()?)),
            15 => Call::Layer(LayerCall::Reopen),
            16 => Call::Layer(LayerCall::Read(self.word()?, self.word()?, self.length()?)),
            17 => Call::Layer(LayerCall::Write(self.word()?, self.word()?, self.counted()?)),
            _ => return None,
        })
    }
}

impl<'a> Iterator for Calls<'a> {
    type Item = Call<'a>;

    ghost remaining = { λ calls. at_most (length calls.rest.now) };

    // The next call, if it is all there.
    fn next(&mut self) -> Option<Call<'a>> {
        let code = self.word()?;
        self.call(code)
    }
}
