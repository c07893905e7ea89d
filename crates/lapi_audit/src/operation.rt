//! The state of one operation.
ghost use Rattle.std.specs.Prelude.{◌≡◌, ◌<◌, true, replicate, slice_index_or};
ghost use Rattle.lapi_base.specs.Record.Names.{key_of};
ghost use Rattle.lapi_audit.specs.Noted.{still, fresh, transit_of, with_transit, noted, after, JoinIsBelow, HasJoinBelow};

use lapi_base::{Event, Leg};
use lapi_calls::is_go;

/// Which events of a message stood.
#[derive(Clone, Copy, Debug)]
pub struct Transit {
    pub copied: bool,
    pub landed: bool,
}

/// Which events of a statement stood, those of its messages among them.
#[derive(Clone, Copy, Debug)]
pub struct Operation {
    pub issued: bool,
    pub refused: bool,
    pub entered: bool,
    pub passed: bool,
    pub headed: bool,
    pub begun: bool,
    pub ended: bool,
    pub go: Transit,
    pub back: Transit,
    pub note: Transit,
    pub echo: Transit,
    /// The Join to each task.
    pub joins: [Transit; 8],
}

/// The state of a message of which no event stood.
pub const STILL: Transit = Transit {
    copied: false,
    landed: false,
};

impl Operation {
    /// No event stood.
    pub fn new() -> Operation
        ensures { result ≡ fresh }
    {
        Operation {
            issued: false,
            refused: false,
            entered: false,
            passed: false,
            headed: false,
            begun: false,
            ended: false,
            go: STILL,
            back: STILL,
            note: STILL,
            echo: STILL,
            joins: [STILL; 8],
        }
    }

    /// The state of one of its messages.
    pub fn transit(&self, leg: Leg) -> Transit
        ensures { result ≡ transit_of self.now leg }
    {
        match leg {
            Leg::Go => self.go,
            Leg::Back => self.back,
            Leg::Note => self.note,
            Leg::Echo => self.echo,
            Leg::Join(task) => self.join(task),
        }
    }

    /// The state of the join to a task; to one that isn't there no join stood.
    fn join(&self, task: u32) -> Transit
        ensures { result ≡ slice_index_or self.now.joins task still }
    {
        match self.joins.get(task as usize) {
            Some(transit) => *transit,
            None => STILL,
        }
    }

    /// Whether an event of this kind and name stood.
    pub fn has(&self, event: &Event) -> bool
        ensures { result ≡ noted self.now (key_of event.now) }
    {
        match event {
            Event::Issue { .. } => self.issued,
            Event::Refuse { .. } => self.refused,
            Event::Enter { .. } => self.entered,
            Event::Pass { .. } => self.passed,
            Event::Copy(name) => self.transit(name.leg).copied,
            Event::Head(name) => is_go(name.leg) && self.headed,
            Event::Land(name) => self.transit(name.leg).landed,
            Event::Begin { name, .. } => is_go(name.leg) && self.begun,
            Event::End { name, .. } => is_go(name.leg) && self.ended,
        }
    }

    /// Changes the state of one of its messages.
    fn set_transit(&mut self, leg: Leg, transit: Transit)
        requires { JoinIsBelow leg 8 }
        ensures { self.new ≡ with_transit self.old leg transit }
    {
        match leg {
            Leg::Go => self.go = transit,
            Leg::Back => self.back = transit,
            Leg::Note => self.note = transit,
            Leg::Echo => self.echo = transit,
            Leg::Join(task) => self.joins[task as usize] = transit,
        }
    }

    /// A message is copied.
    fn copy(&mut self, leg: Leg)
        requires { JoinIsBelow leg 8 }
        ensures { self.new ≡ with_transit self.old leg (record (transit_of self.old leg) { copied = true }) }
    {
        let mut transit = self.transit(leg);
        transit.copied = true;
        self.set_transit(leg, transit);
    }

    /// A message has landed.
    fn land(&mut self, leg: Leg)
        requires { JoinIsBelow leg 8 }
        ensures { self.new ≡ with_transit self.old leg (record (transit_of self.old leg) { landed = true }) }
    {
        let mut transit = self.transit(leg);
        transit.landed = true;
        self.set_transit(leg, transit);
    }

    /// The event stands.
    pub fn note(&mut self, event: &Event)
        requires { HasJoinBelow event.now 8 }
        ensures { self.new ≡ after event.now self.old }
    {
        match event {
            Event::Issue { .. } => self.issued = true,
            Event::Refuse { .. } => self.refused = true,
            Event::Enter { .. } => self.entered = true,
            Event::Pass { .. } => self.passed = true,
            Event::Copy(name) => self.copy(name.leg),
            Event::Head(_) => self.headed = true,
            Event::Land(name) => self.land(name.leg),
            Event::Begin { .. } => self.begun = true,
            Event::End { .. } => self.ended = true,
        }
    }
}
