//! Journals of two tasks, and the verdicts on them. Only task 0 has statements.
ghost use Rattle.std.specs.Prelude.{◌≡◌, true, IfOk};
ghost use Rattle.lapi_base.specs.Packet.Layout.{is_version};
ghost use Rattle.lapi_base.specs.Record.Valid.{ValidScript, ValidStatement};

use super::*;
use lapi_base::{
    Addr, Bytes, Choice, CompletionRule, Event, HeaderRule, Leg, Memory, MsgName, Place, Refusal,
    Script, Statement, StatementLists, Statements,
};
use std::alloc::Global;
use std::process::Abort;
use std::test::Fail;

// The second header handler names a completion handler; the first names none.
const HEADERS: [HeaderRule; 2] = [
    HeaderRule {
        place: Place::Nowhere,
        choice: Choice::Never,
    },
    HeaderRule {
        place: Place::Nowhere,
        choice: Choice::Always(0),
    },
];

const COMPLETIONS: [CompletionRule; 1] = [CompletionRule::Answer];

const ATOMIC: Verdict = Verdict::Atomic;

const GO: Leg = Leg::Go;

/// What it shows, the events, and the verdict on them.
type Case<'a> = (&'a str, &'a [Event], Verdict);

/// The statements of task 0, two of them.
#[derive(Clone, Copy, Debug)]
enum Given {
    /// A store, and a put of its bytes.
    StoreAndPut,
    /// A message with a completion, and a fence.
    MessageAndFence,
    /// A message without a completion, and a wait for 1.
    MessageAndWait,
    /// A global fence, and a fence.
    GfenceAndFence,
    /// An address within the memory, and one above it.
    Addresses,
    /// A put to a task that isn't there, and a wait for 0 of a counter that isn't there.
    FarPutAndWait,
    /// The same, and a wait for 1.
    FarPutAndLongWait,
    /// A wait for 0, and an address above the memory.
    WaitAndFarAddress,
    /// A store, and a message whose completion answers at byte 32. It is of the second layout.
    StoreAndAnswer,
    /// The same of the first layout, in which nobody answers.
    StoreAndNote,
    /// A store, and a message whose completion would answer at byte 34. It is of the second layout.
    StoreAndFarAnswer,
}

fn put(target: u32) -> Statement
    ensures { ValidStatement result }
{
    Statement::Put {
        target,
        to: Addr::Plain(16),
        from: 0,
        len: 8,
        tgt: None,
        org: None,
        cmpl: None,
    }
}

fn message(alloc: Global, handler: u32) -> Statement
    ensures { ValidStatement result }
{
    Statement::Am {
        target: 1,
        handler,
        header: Bytes::new(alloc),
        from: 0,
        len: 4,
        tgt: None,
        org: None,
        cmpl: None,
    }
}

/// A message with a user value, a target counter and a completion counter.
fn answered(alloc: Global, user: u8) -> Result<Statement, Memory>
    ensures { IfOk result ValidStatement }
{
    let header = Bytes::from_slice(alloc, &[0, 0, 0, 16, 0, 0, 0, user, 0, 0, 0, 4])?;
    Ok(Statement::Am {
        target: 1,
        handler: 1,
        header,
        from: 0,
        len: 4,
        tgt: Some(0),
        org: None,
        cmpl: Some(0),
    })
}

fn wait(counter: u32, value: u32) -> Statement
    ensures { ValidStatement result }
{
    Statement::Wait { counter, value }
}

fn store(alloc: Global) -> Result<Statement, Memory>
    ensures { IfOk result ValidStatement }
{
    let bytes = Bytes::from_slice(alloc, &[0x61, 0x62, 0x63, 0x64, 0x65, 0x66, 0x67, 0x68])?;
    Ok(Statement::Store { at: 0, bytes })
}

fn script(alloc: Global, layout: u32, first: Statement, second: Statement) -> Result<Script, Memory>
    requires layout { is_version layout ≡ true }
    requires first { ValidStatement first }
    requires second { ValidStatement second }
    ensures { IfOk result ValidScript }
{
    let mut statements = Statements::new(alloc);
    statements.push(first)?;
    statements.push(second)?;
    let mut lists = StatementLists::new(alloc);
    lists.push(statements)?;
    lists.push(Statements::new(alloc))?;
    Ok(Script {
        layout,
        tasks: 2,
        memory: 64,
        counters: 4,
        workers: 1,
        lists,
    })
}

impl Given {
    fn script(self, alloc: Global) -> Result<Script, Memory>
        ensures { IfOk result ValidScript }
    {
        match self {
            Given::StoreAndPut => script(alloc, 1, store(alloc)?, put(1)),
            Given::MessageAndFence => script(alloc, 1, message(alloc, 1), Statement::Fence),
            Given::MessageAndWait => script(alloc, 1, message(alloc, 0), wait(0, 1)),
            Given::GfenceAndFence => script(alloc, 1, Statement::Gfence, Statement::Fence),
            Given::Addresses => script(
                alloc,
                1,
                Statement::Addr { at: 8 },
                Statement::Addr { at: 100 },
            ),
            Given::FarPutAndWait => script(alloc, 1, put(9), wait(9, 0)),
            Given::FarPutAndLongWait => script(alloc, 1, put(9), wait(9, 1)),
            Given::WaitAndFarAddress => {
                script(alloc, 1, wait(0, 0), Statement::Addr { at: 100 })
            }
            Given::StoreAndAnswer => script(alloc, 2, store(alloc)?, answered(alloc, 32)?),
            Given::StoreAndNote => script(alloc, 1, store(alloc)?, answered(alloc, 32)?),
            Given::StoreAndFarAnswer => script(alloc, 2, store(alloc)?, answered(alloc, 34)?),
        }
    }

    /// Compares the verdict on each journal.
    fn compare(self, rt: &impl Abort, alloc: Global, cases: &[Case<'_>]) -> Result<(), Fail> {
        let script = self.script(alloc)?;
        for (shows, journal, expected) in cases {
            assert!(rt; journal.len() <= 100, "{shows}");
            let verdict = audit(alloc, &script, &HEADERS, &COMPLETIONS, journal)?;
            assert_eq!(rt; verdict, *expected, "{shows}");
        }
        Ok(())
    }
}

fn name(statement: u32, leg: Leg) -> MsgName {
    MsgName {
        origin: 0,
        statement,
        leg,
    }
}

fn issue(statement: u32) -> Event {
    Event::Issue { task: 0, statement }
}

fn enter(statement: u32) -> Event {
    Event::Enter { task: 0, statement }
}

fn pass(statement: u32) -> Event {
    Event::Pass { task: 0, statement }
}

fn refuse(statement: u32, why: Refusal) -> Event {
    Event::Refuse {
        task: 0,
        statement,
        why,
    }
}

fn copy(statement: u32, leg: Leg) -> Event {
    Event::Copy(name(statement, leg))
}

fn head(statement: u32) -> Event {
    Event::Head(name(statement, GO))
}

fn land(statement: u32, leg: Leg) -> Event {
    Event::Land(name(statement, leg))
}

fn begin(statement: u32, task: u32, worker: u32) -> Event {
    Event::Begin {
        name: name(statement, GO),
        task,
        worker,
    }
}

fn end(statement: u32) -> Event {
    Event::End {
        name: name(statement, GO),
        task: 1,
        worker: 0,
    }
}

fn broken(rule: u32, place: u32) -> Verdict {
    Verdict::Broken { rule, place }
}

#[test]
fn an_operation_goes_its_way_once(rt: HostRuntime) -> Result<(), Fail> {
    let alloc = rt.alloc();
    let put = [issue(0), issue(1), copy(1, GO), land(1, GO), land(1, GO)];
    let skipped = [issue(0), issue(1), land(1, GO)];
    let noted = [issue(0), issue(1), copy(1, Leg::Note)];
    let back = [issue(0), issue(1), copy(1, Leg::Back)];
    let headed = [issue(0), issue(1), copy(1, GO), head(1)];
    let of_puts = [
        ("a put lands", &put[..4], ATOMIC),
        ("it lands again", &put[..], broken(1, 4)),
        ("nothing happens", &put[..0], ATOMIC),
        ("it lands uncopied", &skipped[..], broken(2, 2)),
        ("no completion counter", &noted[..], broken(1, 2)),
        ("nothing comes back", &back[..], broken(1, 2)),
        ("it has no head", &headed[..], broken(1, 3)),
    ];
    Given::StoreAndPut.compare(&rt, alloc, &of_puts)?;
    let before = [issue(0), copy(0, GO), head(0), land(0, GO)];
    let [issued, copied, headed, landed] = before;
    let run = [issued, copied, headed, landed, begin(0, 1, 0), end(0)];
    let unbegun = [issued, copied, headed, landed, end(0)];
    let far = [issued, copied, headed, landed, begin(0, 0, 0)];
    let worker = [issued, copied, headed, landed, begin(0, 1, 1)];
    let begun = [issued, copied, headed, landed, begin(0, 1, 0)];
    let of_jobs = [
        ("a job runs", &run[..], ATOMIC),
        ("it ends unbegun", &unbegun[..], broken(2, 4)),
        ("not at the origin", &far[..], broken(1, 4)),
        ("no such worker", &worker[..], broken(1, 4)),
    ];
    Given::MessageAndFence.compare(&rt, alloc, &of_jobs)?;
    let of_none = [
        ("no completion to begin", &begun[..], broken(3, 4)),
        ("no completion to end", &unbegun[..], broken(3, 4)),
    ];
    Given::MessageAndWait.compare(&rt, alloc, &of_none)
}

#[test]
fn an_answer_takes_the_place_of_a_note(rt: HostRuntime) -> Result<(), Fail> {
    let alloc = rt.alloc();
    let [stored, sent, copied] = [issue(0), issue(1), copy(1, GO)];
    let [headed, landed] = [head(1), land(1, GO)];
    let [begun, ended] = [begin(1, 1, 0), end(1)];
    let [echo, note] = [copy(1, Leg::Echo), copy(1, Leg::Note)];
    let [told, noted] = [land(1, Leg::Echo), land(1, Leg::Note)];
    let answer = [
        stored, sent, copied, headed, landed, begun, ended, echo, told,
    ];
    let by_note = [
        stored, sent, copied, headed, landed, begun, ended, note, noted,
    ];
    let early = [stored, sent, copied, headed, landed, begun, echo];
    let uncopied = [stored, sent, copied, headed, landed, begun, ended, told];
    let of_answers = [
        ("it answers", &answer[..], ATOMIC),
        ("it is on its way", &answer[..8], ATOMIC),
        ("no note beside the answer", &by_note[..], broken(1, 7)),
        ("before its job ends", &early[..], broken(2, 6)),
        ("it lands uncopied", &uncopied[..], broken(2, 7)),
    ];
    Given::StoreAndAnswer.compare(&rt, alloc, &of_answers)?;
    let of_notes = [
        ("a note", &by_note[..], ATOMIC),
        ("nobody answers", &answer[..], broken(1, 7)),
    ];
    Given::StoreAndNote.compare(&rt, alloc, &of_notes)?;
    Given::StoreAndFarAnswer.compare(&rt, alloc, &of_notes)
}

#[test]
fn statements_wait(rt: HostRuntime) -> Result<(), Fail> {
    let alloc = rt.alloc();
    let fenced = [issue(0), copy(0, GO), head(0), pass(1)];
    let landed = [issue(0), copy(0, GO), head(0), land(0, GO), pass(1)];
    let echo = [issue(0), copy(0, Leg::Echo)];
    let of_fences = [
        ("before it lands", &fenced[..], broken(5, 3)),
        ("while its job waits", &landed[..], ATOMIC),
        ("nobody answers", &echo[..], broken(1, 1)),
    ];
    Given::MessageAndFence.compare(&rt, alloc, &of_fences)?;
    let of_waits = [("no value yet", &landed[..], broken(4, 4))];
    Given::MessageAndWait.compare(&rt, alloc, &of_waits)?;
    let one = Leg::Join(1);
    let alone = [enter(0), copy(0, one), land(0, one), pass(0)];
    let own = [enter(0), copy(0, Leg::Join(0))];
    let none = [enter(0), copy(0, Leg::Join(2))];
    let of_gfences = [
        ("the other is not here", &alone[..], broken(6, 3)),
        ("no join to itself", &own[..], broken(1, 1)),
        ("no such task", &none[..], broken(1, 1)),
        ("never issued", &[issue(0)][..], broken(1, 0)),
    ];
    Given::GfenceAndFence.compare(&rt, alloc, &of_gfences)?;
    let of_addresses = [("not told", &alone[..], broken(7, 3))];
    Given::Addresses.compare(&rt, alloc, &of_addresses)
}

#[test]
fn statements_are_refused_in_order(rt: HostRuntime) -> Result<(), Fail> {
    let alloc = rt.alloc();
    let refused = [refuse(0, Refusal::BadTask), pass(1)];
    let another = [refuse(0, Refusal::BadCounter)];
    let copied = [copy(0, GO)];
    let of_far = [
        ("refused", &refused[..1], ATOMIC),
        ("no such counter", &refused[..], broken(8, 1)),
        ("not refused", &[issue(0)][..], broken(8, 0)),
        ("not issued", &copied[..], broken(2, 0)),
        ("another reason", &another[..], broken(8, 0)),
    ];
    Given::FarPutAndWait.compare(&rt, alloc, &of_far)?;
    let of_long = [("it is 0", &refused[..], broken(4, 1))];
    Given::FarPutAndLongWait.compare(&rt, alloc, &of_long)?;
    let of_addresses = [
        ("passed again", &[pass(0), pass(0)][..], broken(1, 1)),
        ("to be refused", &[pass(0), pass(1)][..], broken(8, 1)),
        ("nor entered", &[pass(0), enter(1)][..], broken(8, 1)),
    ];
    Given::WaitAndFarAddress.compare(&rt, alloc, &of_addresses)?;
    let of_puts = [
        ("no reason", &refused[..1], broken(8, 0)),
        ("not the next", &[issue(1)][..], broken(8, 0)),
    ];
    Given::StoreAndPut.compare(&rt, alloc, &of_puts)
}
