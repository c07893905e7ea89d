ghost use Rattle.std.specs.Prelude.{◌≡◌, ◌<◌, ◌≤◌, length, map, vec_len, IfOk};
ghost use Rattle.lapi_base.specs.Record.Handlers.{header_answer, header_rule, completion_answer, completion_rule, kept_choice};
ghost use Rattle.lapi_base.specs.Record.Valid.{ValidRules};
ghost use Rattle.lapi_handlers.specs.HeaderFn.{IsInRange};

use crate::completion_fn::CompletionFn;
use crate::finished::Finished;
use crate::header_fn::HeaderFn;
use crate::job::Job;
use lapi_base::{
    CompletionRule, CompletionRules, HeaderIn, HeaderOut, HeaderRule, HeaderRules, LONGEST_ACTIVE,
    Memory, Rules,
};
use std::alloc::Global;

/// The handlers of a run, by their numbers.
#[derive(Drop)]
pub struct Handlers {
    headers: Vec<HeaderFn>,
    completions: Vec<CompletionFn>,
    ghost headers_fit: { vec_len headers ≤ 16 },
    ghost completions_fit: { vec_len completions ≤ 16 },
}

impl Handlers {
    ghost use Rattle.lapi_handlers.specs.Handlers.{rules_of};

    pub fn new(headers: Vec<HeaderFn>, completions: Vec<CompletionFn>) -> Handlers
        requires headers { vec_len headers ≤ 16 }
        requires completions { vec_len completions ≤ 16 }
        ensures headers { (rules_of result).headers ≡ map (λ f. f.rule) headers.items }
        ensures completions { (rules_of result).completions ≡ map (λ f. f.rule) completions.items }
    {
        Handlers {
            headers,
            completions,
        }
    }

    pub fn header_count(&self) -> u32
        ensures count { result ≡ length (rules_of self.now).headers }
        ensures bounded { result ≤ 16 }
    {
        self.headers.len() as u32
    }

    pub fn completion_count(&self) -> u32
        ensures count { result ≡ length (rules_of self.now).completions }
        ensures bounded { result ≤ 16 }
    {
        self.completions.len() as u32
    }

    /// The rule of a header handler.
    pub fn header_rule(&self, index: u32) -> HeaderRule
        requires { index < length (rules_of self.now).headers }
        ensures { result ≡ header_rule (rules_of self.now) index }
    {
        self.headers[index as usize].rule
    }

    /// The rule of a completion handler.
    pub fn completion_rule(&self, index: u32) -> CompletionRule
        requires { index < length (rules_of self.now).completions }
        ensures { result ≡ completion_rule (rules_of self.now) index }
    {
        self.completions[index as usize].rule
    }

    /// A copy of all rules.
    pub fn rules(&self, alloc: Global) -> Result<Rules, Memory>
        ensures copy { IfOk result (λ rules. rules ≡ rules_of self.now) }
        ensures valid { ValidRules (rules_of self.now) }
    {
        Ok(Rules {
            headers: self.header_rules(alloc)?,
            completions: self.completion_rules(alloc)?,
        })
    }

    fn header_rules(&self, alloc: Global) -> Result<HeaderRules, Memory>
        ensures { IfOk result (λ rules. rules ≡ (rules_of self.now).headers) }
    {
        let mut rules = HeaderRules::new(alloc);
        for handler in &self.headers {
            rules.push(handler.rule)?;
        }
        Ok(rules)
    }

    fn completion_rules(&self, alloc: Global) -> Result<CompletionRules, Memory>
        ensures { IfOk result (λ rules. rules ≡ (rules_of self.now).completions) }
    {
        let mut rules = CompletionRules::new(alloc);
        for handler in &self.completions {
            rules.push(handler.rule)?;
        }
        Ok(rules)
    }

    /// The completion handler that a header handler chose, if there is one of that number.
    pub fn kept(&self, choice: Option<u32>) -> Option<u32>
        ensures { result ≡ kept_choice (length (rules_of self.now).completions) choice }
    {
        match choice {
            Some(index) if index < self.completion_count() => Some(index),
            _ => None,
        }
    }

    /// Calls a header handler, once.
    pub fn header(&self, index: u32, given: &HeaderIn) -> HeaderOut
        requires index { index < length (rules_of self.now).headers }
        requires given { IsInRange given.now }
        ensures { result ≡ header_answer (header_rule (rules_of self.now) index) given.now }
    {
        self.headers[index as usize].answer(given)
    }

    /// Calls the job's completion handler, once.
    pub fn complete(&self, job: Job) -> Finished
        requires completion { job.completion < length (rules_of self.now).completions }
        requires buffer { length job.buffer ≤ LONGEST_ACTIVE }
        ensures effect { result.effect ≡ completion_answer (completion_rule (rules_of self.now) job.completion) job.user job.buffer }
        ensures message { result.name ≡ job.name }
        ensures place { (result.task ≡ job.task) × (result.worker ≡ job.worker) }
        ensures buffer { result.buffer ≡ job.buffer }
    {
        let Job {
            name,
            task,
            worker,
            completion,
            user,
            buffer,
        } = job;
        let handler = &self.completions[completion as usize];
        let effect = handler.effect(user, buffer.as_slice());
        Finished {
            name,
            task,
            worker,
            effect,
            buffer,
        }
    }
}
