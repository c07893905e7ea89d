//! What a script and its handlers' rules say of one statement.
ghost use Rattle.std.specs.Prelude.{◌≡◌, ◌<◌, ◌≤◌, ℕ, true, false, length, take, slice_get, option_map, MatchOption};
ghost use Rattle.lapi_base.specs.Record.Atomic.{is_there, has_statement};
ghost use Rattle.lapi_base.specs.Record.Handlers.{number_of, header_word, user_by, completion_rule, is_answer};
ghost use Rattle.lapi_base.specs.Record.Names.{key_of};
ghost use Rattle.lapi_base.specs.Record.Operations.{statements, statement, receiver, has_leg};
ghost use Rattle.lapi_base.specs.Record.Valid.{ValidScript};
ghost use Rattle.lapi_calls.specs.Setting.{rules_of, named_choice, kept, completes, has_place, is_answered, answers_by, has_head, has_event, HasStatement, LacksStatement, IsStatement, IsThere, lies_at, leg_is_there};
ghost use Rattle.lapi_calls.specs.Places.{task_of, statement_of};
ghost use Rattle.lapi_calls.specs.Limits.{limits_of};

use crate::limits::Limits;
use crate::name::{is_go, place_of, receiver};
use crate::statement::{
    completion_counter, has_back, is_data, is_entered, is_issued, is_message, is_passed,
};
use lapi_base::{
    Bytes, Choice, CompletionRule, Event, HeaderRule, Leg, MsgName, Script, Statement,
};

/// A script, and what its handlers answer.
#[derive(Clone, Copy)]
pub struct Setting<'a> {
    pub script: &'a Script,
    /// What the header handlers answer, by their numbers.
    pub headers: &'a [HeaderRule],
    /// What the completion handlers do, by their numbers.
    pub completions: &'a [CompletionRule],
}

impl<'a> Setting<'a> {
    /// Statement `i` of a task, if there is one.
    pub fn statement(&self, task: u32, i: u32) -> Option<&'a Statement>
        requires { ValidScript self.now.script.now }
        ensures { MatchOption result (LacksStatement self.now task i) (λ s. IsStatement self.now task i s.now) }
    {
        statement_of(self.script, task, i)
    }

    /// The limits by which statements are refused.
    pub fn limits(&self) -> Limits
        ensures { result ≡ limits_of self.now.script.now (length self.now.headers.now) }
    {
        Limits::of(self.script, self.headers.len())
    }

    /// Statement `i` of a task, which is there.
    pub fn at(&self, task: u32, i: u32) -> &'a Statement
        requires script { ValidScript self.now.script.now }
        requires there { HasStatement self.now task i }
        ensures { result.now ≡ statement self.now.script.now task i }
    {
        match self.statement(task, i) {
            Some(statement) => statement,
            None => unreachable!(),
        }
    }

    /// The statement at which an event lies.
    pub fn of(&self, event: &Event) -> &'a Statement
        requires script { ValidScript self.now.script.now }
        requires there { IsThere self.now event.now }
        ensures { result.now ≡ lies_at self.now.script.now event.now }
    {
        let (task, i) = place_of(event);
        self.at(task, i)
    }

    /// Whether the message of this statement has a completion: its header handler names a completion
    /// handler that is there.
    pub fn has_completion(&self, statement: &Statement) -> bool
        ensures { result ≡ completes (rules_of self.now) statement.now }
    {
        let Statement::Am {
            handler,
            header,
            ..
        } = statement
        else {
            return false;
        };
        self.completion(*handler, header).is_some()
    }

    /// The completion handler of a message, if it is there.
    fn completion(&self, handler: u32, header: &Bytes) -> Option<u32>
        ensures { result ≡ kept (rules_of self.now) handler header.now }
    {
        let index = self.choice(handler, header)?;
        ((index as usize) < self.completions.len()).then_some(index)
    }

    /// Whether the message of this statement is answered: its completion handler is one that answers, and
    /// its user value is a word's place in the origin's memory.
    pub fn answers(&self, statement: &Statement) -> bool
        ensures { result ≡ answers_by self.now.script.now (rules_of self.now) statement.now }
    {
        let Statement::Am {
            handler,
            header,
            ..
        } = statement
        else {
            return false;
        };
        self.script.may_answer() && self.is_answered(*handler, header)
    }

    /// Whether the completion handler answers, and the answer has a place.
    fn is_answered(&self, handler: u32, header: &Bytes) -> bool
        ensures { result ≡ is_answered self.now.script.now (rules_of self.now) handler header.now }
    {
        match self.completion(handler, header) {
            Some(index) => self.is_answer(index) && self.has_place(user(header)),
            None => false,
        }
    }

    /// Whether this completion handler answers.
    fn is_answer(&self, index: u32) -> bool
        ensures { result ≡ is_answer (completion_rule (rules_of self.now) index) }
    {
        matches!(
            self.completions.get(index as usize),
            Some(CompletionRule::Answer)
        )
    }

    /// Whether a word has a place at this address of the origin's memory.
    fn has_place(&self, user: u32) -> bool
        ensures { result ≡ has_place self.now.script.now user }
    {
        user % 4 == 0 && user as u64 + 4 <= self.script.memory as u64
    }

    /// The completion handler that a header handler names.
    fn choice(&self, handler: u32, header: &Bytes) -> Option<u32>
        ensures { result ≡ named_choice (rules_of self.now) handler header.now }
    {
        match self.headers.get(handler as usize)?.choice {
            Choice::Never => None,
            Choice::Always(index) => Some(index),
            Choice::Word => header_word(header, 2),
        }
    }

    /// Whether a statement of this task has a message of this leg.
    pub fn has_leg(&self, task: u32, leg: Leg, statement: &Statement) -> bool
        ensures { result ≡ leg_is_there self.now task leg statement.now }
    {
        match leg {
            Leg::Go => is_data(statement),
            Leg::Back => has_back(statement),
            Leg::Note => completion_counter(statement).is_some() && !self.answers(statement),
            Leg::Echo => self.answers(statement),
            Leg::Join(to) => is_entered(statement) && to < self.script.tasks && to != task,
        }
    }

    /// Whether the statement has such an event.
    fn has_event(&self, event: &Event, statement: &Statement) -> bool
        ensures { result ≡ has_event self.now.script.now (rules_of self.now) event.now statement.now }
    {
        match event {
            Event::Issue { .. } => is_issued(statement),
            Event::Refuse { .. } => true,
            Event::Enter { .. } => is_entered(statement),
            Event::Pass { .. } => is_passed(statement),
            Event::Copy(name) | Event::Land(name) => {
                self.has_leg(name.origin, name.leg, statement)
            }
            Event::Head(name) => self.has_head(*name, statement),
            Event::Begin { name, task, worker } | Event::End { name, task, worker } => {
                self.has_head(*name, statement)
                    && receiver(*name, statement) == *task
                    && *task < self.script.tasks
                    && *worker < self.script.workers
            }
        }
    }

    /// Whether a message has a head: an active message on its way to the target.
    fn has_head(&self, name: MsgName, statement: &Statement) -> bool
        ensures { result ≡ has_head self.now.script.now (rules_of self.now) name statement.now }
    {
        self.has_leg(name.origin, name.leg, statement) && is_go(name.leg) && is_message(statement)
    }

    /// Whether the event is of a statement or a message that is there, and that has such an event.
    pub fn is_there(&self, event: &Event) -> bool
        requires { ValidScript self.now.script.now }
        ensures { result ≡ is_there self.now.script.now (rules_of self.now) event.now }
    {
        let (task, i) = place_of(event);
        match self.statement(task, i) {
            Some(statement) => self.has_event(event, statement),
            None => false,
        }
    }
}

/// The user value: the second word of the user header, and 0 where there is none.
fn user(header: &Bytes) -> u32
    ensures { result ≡ user_by header.now }
{
    header_word(header, 1).unwrap_or(0)
}

/// Word `index` of a user header, which is absent where the header is shorter. It stands a second time in
/// `lapi_handlers`, which has the same rules as functions.
#[tactic(auto, unfolding(lapi_base::specs::Record::Handlers::header_word))]
fn header_word(header: &Bytes, index: usize) -> Option<u32>
    requires { index < 3 }
    ensures { result ≡ header_word header.now index }
{
    let bytes = header.as_slice();
    let at = 4 * index;
    if at + 4 > bytes.len() {
        return None;
    }
    let (_, rest) = bytes.split_at(at);
    Some(first_word(rest))
}

/// The number that the first four bytes spell, the highest byte first.
#[tactic(auto, using(crate::proofs::Words::first_four))]
fn first_word(bytes: &[u8]) -> u32
    requires { 4 ≤ length bytes.now }
    ensures { result ≡ number_of (take 4 bytes.now) }
{
    u32::from_be_bytes([bytes[0], bytes[1], bytes[2], bytes[3]])
}

/// Statement `i` of a task, if there is one.
fn statement_of(script: &Script, task: u32, i: u32) -> Option<&Statement>
    ensures { option_map (λ s. s.now) result ≡ slice_get (statements script.now task) i }
{
    let list = script.lists.as_slice().get(task as usize)?;
    list.as_slice().get(i as usize)
}
