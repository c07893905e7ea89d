ghost use Rattle.std.specs.Prelude.{◌≡◌, ◌≢◌, ◌<◌, ◌≤◌, ◌+◌, List, ℕ, [], length, Err, IfOk, IfSome, OnOk};
ghost use Rattle.std.specs.List.{fold};
ghost use Rattle.lapi_capture.specs.declared.feed_fault.FeedFault.{FeedFault as Fault};
ghost use Rattle.lapi_capture.specs.declared.feed_fault.FeedFault.TheVariants.{Memory as no_memory};
ghost use Rattle.lapi_capture.specs.declared.stage.Stage.TheVariants.{Opening, Frames, Faulty};
ghost use Rattle.lapi_capture.specs.Reading.{IsReadingOf, GoesOn, ended, fault_at};
ghost use Rattle.lapi_capture.specs.Steps.{bad, byte, counted, first, further, more, opening, told, whole};

use crate::contents::contents;
use crate::feed_fault::FeedFault;
use crate::flaw::Flaw;
use crate::format::{FRONT, LAST_TASK, LONGEST, MOST_FRAMES, MOST_TOLD, byte_at, size_of};
use crate::landing::Landing;
use crate::messages::Messages;
use crate::part::{MOST_FRAGMENTS, Part};
use crate::stage::Stage;
use lapi_base::{CAPTURE_END, CAPTURE_MAGIC, Memory};
use std::alloc::Global;
use std::cmp;
use std::marker::Model;

/// Finds the landings in a capture, which comes in any pieces. It keeps one entry for each message.
#[derive(Debug, Drop)]
pub struct Reader {
    stage: Stage,
    frames: u32,
    // The place behind the whole frames.
    place: u64,
    messages: Messages,
    landings: Vec<Landing>,
    // The bytes since.
    rest: Vec<u8>,
}

impl Model for Reader {
    ghost use Rattle.lapi_capture.specs.Reading.{Reading, reading};
    ghost use Rattle.lapi_capture.specs.Steps.{IsSmall};

    ghost Value = { Reading };

    ghost view = { λ r. reading r.stage r.frames r.place r.messages r.landings.items r.rest.items };

    ghost invariant = { λ r. IsSmall r.stage r.frames r.place r.rest.items };
}

impl Reader {
    /// A reader to which nothing was fed.
    pub fn new(alloc: Global) -> Reader
        ensures { IsReadingOf result [] }
    {
        Reader {
            stage: Stage::Opening,
            frames: 0,
            place: 0,
            messages: Messages::new(alloc),
            landings: Vec::new(alloc),
            rest: Vec::new(alloc),
        }
    }

    /// Takes the next bytes.
    pub fn feed(&mut self, piece: &[u8]) -> Result<(), FeedFault>
        // However the bytes are cut, it then tells what all of them are.
        ensures told { result ≢ Err no_memory → GoesOn self.old piece.now self.new }
        // The fault that was found, at this call and at each later one.
        ensures fault { result ≡ fault_at self.new.stage }
        ensures stays { (fault : Fault) → self.old.stage ≡ Faulty fault → self.new ≡ self.old }
    {
        if let Stage::Faulty(fault) = self.stage {
            return Err(fault);
        }
        let mut left = piece;
        while !left.is_empty() {
            match self.take(left) {
                Ok(behind) => left = behind,
                Err(Memory) => {
                    self.stage = Stage::Faulty(FeedFault::Memory);
                    return Err(FeedFault::Memory);
                }
            }
        }
        self.fault()
    }

    /// The landings in the whole frames so far, in their order.
    pub fn landings(&self) -> &[Landing]
        ensures { result.now ≡ self.now.landings }
    {
        self.landings.as_slice()
    }

    /// How many whole frames came.
    pub fn frames(&self) -> u32
        ensures { result ≡ self.now.frames }
    {
        self.frames
    }

    /// The end of the input.
    pub fn end(&self) -> Result<(), FeedFault>
        ensures ended { (bytes : List ℕ) → IsReadingOf self.now bytes → result ≡ ended self.now bytes }
        // Also a want of memory.
        ensures fault { (fault : Fault) → self.now.stage ≡ Faulty fault → result ≡ Err fault }
    {
        match self.stage {
            Stage::Faulty(fault) => Err(fault),
            Stage::Over => Ok(()),
            Stage::Opening | Stage::Frames => Err(FeedFault::Bad {
                place: self.place + self.rest.len() as u64,
                flaw: Flaw::Early,
            }),
        }
    }

    fn fault(&self) -> Result<(), FeedFault>
        ensures { result ≡ fault_at self.now.stage }
    {
        match self.stage {
            Stage::Faulty(fault) => Err(fault),
            Stage::Opening | Stage::Frames | Stage::Over => Ok(()),
        }
    }

    // Takes what a frame lacks, as far as it is there, or else one byte; the bytes behind.
    fn take<'a>(&mut self, bytes: &'a [u8]) -> Result<&'a [u8], Memory>
        requires { 0 < length bytes.now }
        ensures fewer { IfOk result (λ behind. length behind.now < length bytes.now) }
        ensures same { IfOk result (λ behind. fold byte self.new behind.now ≡ fold byte self.old bytes.now) }
    {
        if self.rest.len() >= FRONT && matches!(self.stage, Stage::Frames) {
            return self.lacking(bytes);
        }
        let (one, behind) = bytes.split_at(1);
        self.byte(one[0])?;
        Ok(behind)
    }

    // Takes what a frame lacks behind its first four bytes, as far as it is there; the bytes behind.
    fn lacking<'a>(&mut self, bytes: &'a [u8]) -> Result<&'a [u8], Memory>
        requires bytes { 0 < length bytes.now }
        requires front { FRONT ≤ length self.old.rest }
        requires stage { self.old.stage ≡ Frames }
        ensures fewer { IfOk result (λ behind. length behind.now < length bytes.now) }
        ensures same { IfOk result (λ behind. fold byte self.new behind.now ≡ fold byte self.old bytes.now) }
    {
        let lacks = FRONT + size_of(self.rest.as_slice()) - self.rest.len();
        let (part, behind) = bytes.split_at(cmp::min(lacks, bytes.len()));
        self.further(part)?;
        Ok(behind)
    }

    fn byte(&mut self, b: u8) -> Result<(), Memory>
        ensures { OnOk result (self.new ≡ byte self.old b) }
    {
        match self.stage {
            Stage::Opening => self.opening(b),
            Stage::Frames => {
                if self.rest.is_empty() {
                    self.first(b)
                } else {
                    self.further(&[b])
                }
            }
            Stage::Over => {
                let place = self.place + 1;
                self.bad(place, Flaw::After);
                Ok(())
            }
            // Behind a fault nothing counts.
            Stage::Faulty(_) => Ok(()),
        }
    }

    fn bad(&mut self, place: u64, flaw: Flaw)
        ensures { self.new ≡ bad self.old place flaw }
    {
        self.stage = Stage::Faulty(FeedFault::Bad { place, flaw });
    }

    fn opening(&mut self, b: u8) -> Result<(), Memory>
        requires { self.old.stage ≡ Opening }
        ensures { OnOk result (self.new ≡ opening self.old b) }
    {
        let count = self.rest.len();
        if b != byte_at(&CAPTURE_MAGIC, count) {
            self.bad(count as u64, Flaw::Magic);
        } else if count + 1 < CAPTURE_MAGIC.len() {
            self.rest.push(b)?;
        } else {
            self.stage = Stage::Frames;
            self.place = CAPTURE_MAGIC.len() as u64;
            self.rest.clear();
        }
        Ok(())
    }

    fn first(&mut self, b: u8) -> Result<(), Memory>
        requires { length self.old.rest ≡ 0 }
        ensures { OnOk result (self.new ≡ first self.old b) }
    {
        if b == CAPTURE_END {
            self.stage = Stage::Over;
        } else if self.frames >= MOST_FRAMES {
            self.stage = Stage::Faulty(FeedFault::Limit { place: self.place });
        } else if b > LAST_TASK {
            self.bad(self.place, Flaw::Task);
        } else {
            self.rest.push(b)?;
        }
        Ok(())
    }

    #[tactic(auto, unfolding(crate::specs::Steps::further))]
    fn further(&mut self, bytes: &[u8]) -> Result<(), Memory>
        requires rest { 0 < length self.old.rest }
        requires length { length self.old.rest + length bytes.now ≤ MOST_TOLD }
        requires stage { self.old.stage ≡ Frames }
        ensures { OnOk result (self.new ≡ further (more self.old bytes.now)) }
    {
        self.rest.extend_from_slice(bytes)?;
        let length = self.rest.len();
        if length == 2 && self.rest[1] > LAST_TASK {
            let place = self.place + 1;
            self.bad(place, Flaw::Task);
            return Ok(());
        }
        if length < FRONT {
            return Ok(());
        }
        let size = size_of(self.rest.as_slice());
        if length == FRONT && size > LONGEST {
            let place = self.place + 2;
            self.bad(place, Flaw::Size);
            return Ok(());
        }
        if length < FRONT + size {
            return Ok(());
        }
        let (addressed, part) = contents(self.rest.as_slice());
        self.rest.clear();
        self.whole(length, addressed, part)
    }

    fn whole(&mut self, length: usize, addressed: bool, part: Option<Part>) -> Result<(), Memory>
        requires frames { self.old.frames < MOST_FRAMES }
        requires length { length ≤ MOST_TOLD }
        requires stage { self.old.stage ≡ Frames }
        requires rest { self.old.rest ≡ [] }
        requires part { IfSome part (λ part. part.fragment < MOST_FRAGMENTS) }
        ensures { OnOk result (self.new ≡ whole self.old length addressed part) }
    {
        if !addressed {
            let place = self.place;
            self.bad(place, Flaw::Clash);
            return Ok(());
        }
        match part {
            None => {
                self.counted(length);
                Ok(())
            }
            Some(part) => self.told(length, part),
        }
    }

    #[tactic(auto, unfolding(crate::specs::Steps::told))]
    fn told(&mut self, length: usize, part: Part) -> Result<(), Memory>
        requires frames { self.old.frames < MOST_FRAMES }
        requires length { length ≤ MOST_TOLD }
        requires stage { self.old.stage ≡ Frames }
        requires rest { self.old.rest ≡ [] }
        requires part { part.fragment < MOST_FRAGMENTS }
        ensures { OnOk result (self.new ≡ told self.old length part) }
    {
        if self.messages.differs(part) {
            let place = self.place;
            self.bad(place, Flaw::Clash);
            return Ok(());
        }
        if self.messages.take(part)? {
            self.landings.push(Landing {
                frame: self.frames,
                name: part.message.name,
                to: part.message.to,
            })?;
        }
        self.counted(length);
        Ok(())
    }

    fn counted(&mut self, length: usize)
        requires frames { self.old.frames < MOST_FRAMES }
        requires length { length ≤ MOST_TOLD }
        requires stage { self.old.stage ≡ Frames }
        requires rest { self.old.rest ≡ [] }
        ensures { self.new ≡ counted self.old length }
    {
        self.frames += 1;
        self.place += length as u64;
    }
}
