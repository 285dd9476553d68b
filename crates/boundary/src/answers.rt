// The answers: words and bytes, one after the other.
ghost use Rattle.std.specs.Prelude.{◌+◌, ◌≤◌, ◌^◌, ◌<◌, length};

use block::Refusal;
use runs::{RebuildCounts, ScrubCounts};
use std::mem;
use stripe::{Cause, Condition, Finding, Layer};

// The room that is left, and the number of bytes written. Once something does not fit, no room is left.
#[derive(Drop)]
pub(crate) struct Answers<'a> {
    rest: &'a mut [u8],
    written: usize,
    ghost counted: { written + length rest.now < 2 ^ 64 },
}

// 0, or the refusal's number.
pub(crate) fn refusal_word(refusal: Option<Refusal>) -> u32 {
    refusal.map_or(0, |why| u32::from(why.number()))
}

// The words of what a scrub answers.
pub(crate) fn scrub_words(counts: ScrubCounts) -> [u32; 5] {
    [
        counts.looked,
        counts.clean,
        counts.mended,
        counts.short,
        counts.lost,
    ]
}

// The words of what a rebuild answers.
pub(crate) fn rebuild_words(counts: RebuildCounts) -> [u32; 3] {
    [counts.moved, counts.mended, counts.lost]
}

fn condition_word(condition: Condition) -> u32 {
    match condition {
        Condition::NotLooked => 0,
        Condition::Readable => 1,
        Condition::Bad(Cause::Blind) => 2,
        Condition::Bad(Cause::Broken) => 3,
        Condition::Bad(Cause::Foreign) => 4,
        Condition::Bad(Cause::Behind) => 5,
    }
}

fn layer_word(layer: Option<Layer>) -> u32 {
    match layer {
        None => 0,
        Some(Layer::Card) => 1,
        Some(Layer::Checksum) => 2,
        Some(Layer::Identity) => 3,
        Some(Layer::Version) => 4,
    }
}

impl<'a> Answers<'a> {
    pub(crate) fn of(out: &'a mut [u8]) -> Answers<'a> {
        Answers {
            rest: out,
            written: 0,
        }
    }

    // The number of bytes written.
    pub(crate) fn written(&self) -> usize {
        self.written
    }

    // Bytes, if they fit.
    pub(crate) fn bytes(&mut self, bytes: &[u8]) {
        let count = bytes.len();
        if let Some((place, rest)) = mem::take(&mut self.rest).split_at_mut_checked(count) {
            place.copy_from_slice(bytes);
            self.written += count;
            self.rest = rest;
        }
    }

    // A word, most significant byte first.
    pub(crate) fn word(&mut self, word: u32) {
        self.bytes(&word.to_be_bytes());
    }

    pub(crate) fn flag(&mut self, flag: bool) {
        self.word(u32::from(flag));
    }

    // The first word of an answer.
    pub(crate) fn outcome(&mut self, refusal: Option<Refusal>) {
        self.word(refusal_word(refusal));
    }

    // The first word of an answer, and the words that follow where the call is accepted.
    pub(crate) fn answer<const N: usize>(&mut self, answer: Result<[u32; N], Refusal>) {
        match &answer {
            Ok(words) => {
                self.outcome(None);
                for &word in words {
                    self.word(word);
                }
            }
            Err(refusal) => self.outcome(Some(*refusal)),
        }
    }

    // Whether there is a lead, and its upper and lower word.
    fn lead(&mut self, lead: Option<i64>) {
        self.flag(lead.is_some());
        let number = lead.unwrap_or(0).to_be_bytes();
        self.bytes(&number[..4]);
        self.bytes(&number[4..]);
    }

    fn finding(&mut self, finding: &Finding) {
        self.word(finding.slot);
        self.word(finding.block);
        self.word(condition_word(finding.condition));
        self.word(layer_word(finding.layer));
        self.lead(finding.lead);
        self.flag(finding.mended);
    }

    // The eight rows.
    pub(crate) fn findings(&mut self, findings: &[Finding; 8]) {
        for finding in findings {
            self.finding(finding);
        }
    }
}
