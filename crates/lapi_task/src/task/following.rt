//! What follows a landing: a notice that the message is complete, or an answer with what stood at its target.
ghost use Rattle.std.specs.Prelude.{◌≡◌, ℕ, ◌<◌, ◌≤◌, ◌∷◌, [], ◌++◌, length, true, is_some, OnOk, Some, option_map};
ghost use Rattle.lapi_base.specs.declared.head.Head.{Head as TheHead};
ghost use Rattle.lapi_base.specs.declared.head.Head.TheVariants.{GetBack, RmwBack, GetvBack, Note};
ghost use Rattle.lapi_base.specs.declared.layout.TheConstants.{PAYLOAD_ROOM};
ghost use Rattle.lapi_base.specs.Record.HeadSays.{noted, answered, follows, back_head, asked_pieces};
ghost use Rattle.lapi_memory.specs.TaskMemory.{IsWithin};
ghost use Rattle.lapi_vector.specs.Pieces.{AreWithin};
ghost use Rattle.lapi_task.specs.Landed.{Follower, MayLeave, note_of, back_of, echo_of, follower, with_follower};
ghost use Rattle.lapi_task.specs.StandsFor.{task_unit};
ghost use Rattle.lapi_task.specs.Working.{echoed};

use crate::follower::{follower_packet, send};
use crate::spans::same_spans;
use crate::task::Task;
use lapi_base::{Events, Head, Leg, Memory, MsgName, NoteOp, Span, Spans};
use lapi_vector::Pieces;
use std::alloc::Global;

impl Task {
    /// Sends what follows the landing of a message from task `from`; an active message with a completion has its notice
    /// later. An answer has the bytes as they stand now, so this comes before the message writes.
    #[tactic(auto, unfolding(lapi_base::specs::Record::HeadSays::follows))]
    pub(super) fn follow(
        &mut self,
        alloc: Global,
        from: u32,
        name: MsgName,
        head: &Head,
        completion: bool,
        events: &mut Events,
    ) -> Result<(), Memory>
        requires link { (from < length self.old.senders.items) × (task_unit self.old ≤ PAYLOAD_ROOM) }
        requires asked { AreWithin (asked_pieces head.now) (length self.old.state.memory) }
        requires allowed { (x : Follower)
            → follower self.old.sizes.layout self.old.state.number from name head.now completion
            self.old.state.memory ≡ Some x
            → MayLeave (task_unit self.old) x }
        ensures senders { OnOk result (self.new.senders.items ≡ with_follower (task_unit self.old)
            (follower self.old.sizes.layout self.old.state.number from name head.now completion self.old.state.memory)
            self.old.senders.items) }
        ensures events { OnOk result (events.new ≡ events.old ++ follows head.now completion name) }
        ensures rest { self.new ≡ record self.old { senders = self.new.senders } }
    {
        match head {
            Head::Put { cmpl, .. } => self.note(alloc, from, name, NoteOp::Put, *cmpl, events),
            Head::Putv { cmpl, .. } => self.note(alloc, from, name, NoteOp::Putv, *cmpl, events),
            Head::Am { cmpl, .. } if !completion => {
                self.note(alloc, from, name, NoteOp::Am, *cmpl, events)
            }
            Head::GetGo { .. } => self.answer_asked(alloc, from, name, head, events),
            Head::RmwGo { .. } => self.answer_asked(alloc, from, name, head, events),
            Head::GetvGo { .. } => self.answer_asked(alloc, from, name, head, events),
            Head::Am { .. }
            | Head::GetBack { .. }
            | Head::GetvBack { .. }
            | Head::RmwBack { .. }
            | Head::Note { .. }
            | Head::Gfence { .. }
            | Head::Addr { .. }
            | Head::Echo { .. } => Ok(()),
        }
    }

    /// Answers task `from` with what it asked for.
    fn answer_asked(
        &mut self,
        alloc: Global,
        from: u32,
        name: MsgName,
        head: &Head,
        events: &mut Events,
    ) -> Result<(), Memory>
        requires link { (from < length self.old.senders.items) × (task_unit self.old ≤ PAYLOAD_ROOM) }
        requires head { (is_some (back_head head.now) ≡ true)
            × AreWithin (asked_pieces head.now) (length self.old.state.memory) }
        requires allowed { (back : TheHead) → back_head head.now ≡ Some back → MayLeave (task_unit self.old)
            (back_of self.old.sizes.layout self.old.state.number from name (asked_pieces head.now)
            self.old.state.memory back) }
        ensures senders { OnOk result (self.new.senders.items ≡ with_follower (task_unit self.old)
            (option_map (back_of self.old.sizes.layout self.old.state.number from name (asked_pieces head.now)
            self.old.state.memory) (back_head head.now)) self.old.senders.items) }
        ensures events { OnOk result (events.new ≡ events.old ++ answered name) }
        ensures rest { self.new ≡ record self.old { senders = self.new.senders } }
    {
        match head {
            Head::GetGo {
                asked,
                source,
                dest,
                org,
                ..
            } => {
                let back = get_back(*dest, *org);
                self.answer(alloc, from, name, back, span_of(*source, *asked), events)
            }
            Head::RmwGo { at, prev, org, .. } => {
                let back = rmw_back(*prev, *org);
                self.answer(alloc, from, name, back, span_of(*at, 4), events)
            }
            Head::GetvGo {
                org,
                source,
                dest,
                ..
            } => self.answer_vector(alloc, from, name, source, *org, dest, events),
            Head::Put { .. }
            | Head::Putv { .. }
            | Head::Am { .. }
            | Head::GetBack { .. }
            | Head::GetvBack { .. }
            | Head::RmwBack { .. }
            | Head::Note { .. }
            | Head::Gfence { .. }
            | Head::Addr { .. }
            | Head::Echo { .. } => unreachable!(),
        }
    }

    /// Tells task `from` that the message is complete, where a counter is named for it.
    pub(super) fn note(
        &mut self,
        alloc: Global,
        from: u32,
        name: MsgName,
        op: NoteOp,
        cmpl: Option<u32>,
        events: &mut Events,
    ) -> Result<(), Memory>
        requires link { (from < length self.old.senders.items) × (task_unit self.old ≤ PAYLOAD_ROOM) }
        requires allowed { (c : ℕ) → cmpl ≡ Some c → MayLeave (task_unit self.old)
            (note_of self.old.sizes.layout self.old.state.number from name (Note op c)) }
        ensures senders { OnOk result (self.new.senders.items ≡ with_follower (task_unit self.old)
            (option_map (λ c. note_of self.old.sizes.layout self.old.state.number from name (Note op c)) cmpl)
            self.old.senders.items) }
        ensures events { OnOk result (events.new ≡ events.old ++ noted name cmpl) }
        ensures rest { self.new ≡ record self.old { senders = self.new.senders } }
    {
        let Some(cmpl) = cmpl else {
            return Ok(());
        };
        let head = Head::Note { op, cmpl };
        let layout = self.sizes.layout;
        let packet = follower_packet(layout, self.state.number, from, name, Leg::Note, head, 0);
        send(
            alloc,
            &mut self.senders,
            self.sizes.unit(),
            packet,
            &[],
            events,
        )
    }

    /// Answers the origin of a message with the word that its completion handler has for it.
    #[tactic(auto, unfolding(lapi_base::specs::Record::Handlers::word_bytes))]
    pub(super) fn echo(
        &mut self,
        alloc: Global,
        name: MsgName,
        dest: u32,
        value: u32,
        cmpl: Option<u32>,
        events: &mut Events,
    ) -> Result<(), Memory>
        requires link { (name.origin < length self.old.senders.items) × (task_unit self.old ≤ PAYLOAD_ROOM) }
        requires allowed { MayLeave (task_unit self.old)
            (echo_of self.old.sizes.layout self.old.state.number name.origin name dest value cmpl) }
        ensures senders { OnOk result (self.new.senders.items ≡ with_follower (task_unit self.old)
            (Some (echo_of self.old.sizes.layout self.old.state.number name.origin name dest value cmpl))
            self.old.senders.items) }
        ensures events { OnOk result (events.new ≡ events.old ++ echoed name) }
        ensures rest { self.new ≡ record self.old { senders = self.new.senders } }
    {
        let head = Head::Echo { dest, cmpl };
        let layout = self.sizes.layout;
        let origin = name.origin;
        let packet = follower_packet(layout, self.state.number, origin, name, Leg::Echo, head, 4);
        let word = value.to_be_bytes();
        send(
            alloc,
            &mut self.senders,
            self.sizes.unit(),
            packet,
            &word,
            events,
        )
    }

    /// Answers task `from` with the bytes of a span.
    fn answer(
        &mut self,
        alloc: Global,
        from: u32,
        name: MsgName,
        head: Head,
        span: Span,
        events: &mut Events,
    ) -> Result<(), Memory>
        requires link { (from < length self.old.senders.items) × (task_unit self.old ≤ PAYLOAD_ROOM) }
        requires within { IsWithin self.old.state.memory span.at span.len }
        requires allowed { MayLeave (task_unit self.old)
            (back_of self.old.sizes.layout self.old.state.number from name (span ∷ []) self.old.state.memory head) }
        ensures senders { OnOk result (self.new.senders.items ≡ with_follower (task_unit self.old)
            (Some (back_of self.old.sizes.layout self.old.state.number from name (span ∷ [])
            self.old.state.memory head)) self.old.senders.items) }
        ensures events { OnOk result (events.new ≡ events.old ++ answered name) }
        ensures rest { self.new ≡ record self.old { senders = self.new.senders } }
    {
        let bytes = self.state.memory.read(&span);
        let layout = self.sizes.layout;
        let packet = follower_packet(
            layout,
            self.state.number,
            from,
            name,
            Leg::Back,
            head,
            span.len,
        );
        send(
            alloc,
            &mut self.senders,
            self.sizes.unit(),
            packet,
            bytes,
            events,
        )
    }

    /// Answers task `from` with the bytes of some pieces, in order.
    fn answer_vector(
        &mut self,
        alloc: Global,
        from: u32,
        name: MsgName,
        pieces: &Spans,
        org: Option<u32>,
        dest: &Spans,
        events: &mut Events,
    ) -> Result<(), Memory>
        requires link { (from < length self.old.senders.items) × (task_unit self.old ≤ PAYLOAD_ROOM) }
        requires within { AreWithin pieces.now (length self.old.state.memory) }
        requires allowed { MayLeave (task_unit self.old)
            (back_of self.old.sizes.layout self.old.state.number from name pieces.now self.old.state.memory
            (GetvBack org dest.now)) }
        ensures senders { OnOk result (self.new.senders.items ≡ with_follower (task_unit self.old)
            (Some (back_of self.old.sizes.layout self.old.state.number from name pieces.now self.old.state.memory
            (GetvBack org dest.now))) self.old.senders.items) }
        ensures events { OnOk result (events.new ≡ events.old ++ answered name) }
        ensures rest { self.new ≡ record self.old { senders = self.new.senders } }
    {
        let head = Head::GetvBack {
            org,
            dest: same_spans(dest)?,
        };
        let pieces = Pieces::list(same_spans(pieces)?);
        let bytes = pieces.gather(alloc, &self.state.memory)?;
        let bytes = bytes.as_slice();
        let length = bytes.len() as u32;
        let layout = self.sizes.layout;
        let packet = follower_packet(
            layout,
            self.state.number,
            from,
            name,
            Leg::Back,
            head,
            length,
        );
        send(
            alloc,
            &mut self.senders,
            self.sizes.unit(),
            packet,
            bytes,
            events,
        )
    }
}

/// The head of the answer to a get.
fn get_back(dest: u32, org: Option<u32>) -> Head
    ensures { result ≡ GetBack dest org }
{
    Head::GetBack { dest, org }
}

/// The head of the answer to a read-modify-write.
fn rmw_back(dest: u32, org: Option<u32>) -> Head
    ensures { result ≡ RmwBack dest org }
{
    Head::RmwBack { dest, org }
}

/// So many bytes from a place on.
fn span_of(at: u32, len: u32) -> Span
    ensures { result ≡ record { at = at; len = len } }
{
    Span {
        at: u64::from(at),
        len,
    }
}
