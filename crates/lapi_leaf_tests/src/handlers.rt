use lapi_base::{
    Bytes, Choice, CompletionRule, Effect, HeaderIn, HeaderOut, HeaderRule, Leg, MsgName, Place,
    UserHeader,
};
use lapi_handlers::{
    CompletionFn, Handlers, HeaderFn, Job, nothing, nowhere, per_origin, reversed, same, sum,
    sum_back, word, word_and_choice,
};
use std::alloc::Global;
use std::process::Abort;
use std::sync::Arc;
use std::sync::atomic::{AtomicU64, Ordering};
use std::test::Fail;

const BY_WORD: HeaderRule = HeaderRule {
    place: Place::Word,
    choice: Choice::Never,
};

const BY_WORDS: HeaderRule = HeaderRule {
    place: Place::Word,
    choice: Choice::Word,
};

const BY_ORIGIN: HeaderRule = HeaderRule {
    place: Place::PerOrigin { base: 0, step: 256 },
    choice: Choice::Always(3),
};

const DISCARDING: HeaderRule = HeaderRule {
    place: Place::Nowhere,
    choice: Choice::Always(1),
};

/// A user header of one word, of two and of three.
const ONE: &[u8] = b"\x00\x00\x04\x00";

const TWO: &[u8] = b"\x80\x00\x00\x01\x00\x01\x02\x03";

const THREE: &[u8] = b"\x00\x00\x00\x10\x00\x00\x00\x20\x00\x00\x00\x01";

/// A header handler's number, the origin, the user header; place, completion and user value of the answer.
type HeaderRow = (u32, u32, &'static [u8], Option<u64>, Option<u32>, u32);

const HEADER_ROWS: [HeaderRow; 16] = [
    (0, 0, b"", None, None, 0),
    (0, 0, ONE, Some(1024), None, 0),
    (0, 3, TWO, Some(2147483649), None, 66051),
    (0, 7, THREE, Some(16), None, 32),
    (1, 0, b"", None, None, 0),
    (1, 1, ONE, Some(1024), None, 0),
    (1, 0, TWO, Some(2147483649), None, 66051),
    (1, 0, THREE, Some(16), Some(1), 32),
    (2, 0, b"", Some(0), Some(3), 0),
    (2, 1, ONE, Some(256), Some(3), 0),
    (2, 7, TWO, Some(1792), Some(3), 66051),
    (2, 2, THREE, Some(512), Some(3), 32),
    (3, 0, b"", None, Some(1), 0),
    (3, 5, ONE, None, Some(1), 0),
    (3, 0, TWO, None, Some(1), 66051),
    (3, 0, THREE, None, Some(1), 32),
];

/// A completion handler's number, the user value, the buffer and the effect.
type CompletionRow = (u32, u32, &'static [u8], Effect);

const COMPLETION_ROWS: [CompletionRow; 11] = [
    (0, 32, b"\x01\x02\x03\x04", Effect::Nothing),
    (0, 0, b"", Effect::Nothing),
    (
        1,
        32,
        b"\x01\x02\x03\x04",
        Effect::Word { at: 32, value: 10 },
    ),
    (
        1,
        4294967295,
        b"",
        Effect::Word {
            at: 4294967295,
            value: 0,
        },
    ),
    (1, 0, b"\xff\xff\xff", Effect::Word { at: 0, value: 765 }),
    (2, 16, b"\x01\x02", Effect::Same { at: 16 }),
    (2, 4294967295, b"", Effect::Same { at: 4294967295 }),
    (3, 256, b"\x01\x02\x03\x04", Effect::Reversed { at: 256 }),
    (3, 512, b"", Effect::Reversed { at: 512 }),
    (
        4,
        32,
        b"\x01\x02\x03\x04",
        Effect::Answer { at: 32, value: 10 },
    ),
    (4, 34, b"", Effect::Answer { at: 34, value: 0 }),
];

fn ask_header(rt: &impl Abort, handlers: &Handlers, row: &HeaderRow) {
    let (index, origin, bytes, place, completion, user) = *row;
    assert!(rt; index < handlers.header_count() && origin < 8 && bytes.len() <= 64);
    let mut header = UserHeader::new();
    header.extend_from_slice(bytes);
    let given = HeaderIn {
        origin,
        header,
        length: 4,
    };
    let out = HeaderOut {
        place,
        completion,
        user,
    };
    assert_eq!(rt; handlers.header(index, &given), out, "{index} of {bytes:?}");
}

fn complete_job(
    rt: &impl Abort,
    alloc: Global,
    handlers: &Handlers,
    row: &CompletionRow,
) -> Result<(), Fail> {
    let (completion, user, bytes, effect) = *row;
    assert!(rt; completion < handlers.completion_count() && bytes.len() <= 16_384);
    let name = MsgName {
        origin: 5,
        statement: 300,
        leg: Leg::Go,
    };
    let job = Job {
        name,
        task: 6,
        worker: 3,
        completion,
        user,
        buffer: Bytes::from_slice(alloc, bytes)?,
    };
    let finished = handlers.complete(job);
    assert_eq!(rt; finished.effect, effect, "{completion} of {bytes:?}");
    assert_eq!(rt; finished.name, name);
    assert_eq!(rt; (finished.task, finished.worker), (6, 3));
    assert_eq!(rt; finished.buffer.as_slice(), bytes);
    Ok(())
}

#[test]
fn built_in_headers_answer_as_their_table(rt: HostRuntime) -> Result<(), Fail> {
    let alloc = rt.alloc();
    let mut headers = Vec::new(alloc);
    headers.push(HeaderFn::new(BY_WORD, Box::new(alloc, |given: &HeaderIn| word(given))?))?;
    headers.push(HeaderFn::new(
        BY_WORDS,
        Box::new(alloc, |given: &HeaderIn| word_and_choice(given))?,
    ))?;
    headers.push(HeaderFn::new(
        BY_ORIGIN,
        Box::new(alloc, |given: &HeaderIn| per_origin(given))?,
    ))?;
    headers.push(HeaderFn::new(
        DISCARDING,
        Box::new(alloc, |given: &HeaderIn| nowhere(given))?,
    ))?;
    let handlers = Handlers::new(headers, Vec::new(alloc));
    assert_eq!(rt; handlers.header_count(), 4);
    assert_eq!(rt; handlers.completion_count(), 0);
    for row in &HEADER_ROWS {
        ask_header(&rt, &handlers, row);
    }
    Ok(())
}

#[test]
fn built_in_completions_answer_as_their_table(rt: HostRuntime) -> Result<(), Fail> {
    let alloc = rt.alloc();
    let mut completions = Vec::new(alloc);
    completions.push(CompletionFn::new(
        CompletionRule::Nothing,
        Box::new(alloc, |user: u32, buffer: &[u8]| nothing(user, buffer))?,
    ))?;
    completions.push(CompletionFn::new(
        CompletionRule::Sum,
        Box::new(alloc, |user: u32, buffer: &[u8]| sum(user, buffer))?,
    ))?;
    completions.push(CompletionFn::new(
        CompletionRule::Same,
        Box::new(alloc, |user: u32, buffer: &[u8]| same(user, buffer))?,
    ))?;
    completions.push(CompletionFn::new(
        CompletionRule::Reversed,
        Box::new(alloc, |user: u32, buffer: &[u8]| reversed(user, buffer))?,
    ))?;
    completions.push(CompletionFn::new(
        CompletionRule::Answer,
        Box::new(alloc, |user: u32, buffer: &[u8]| sum_back(user, buffer))?,
    ))?;
    let handlers = Handlers::new(Vec::new(alloc), completions);
    assert_eq!(rt; handlers.completion_count(), 5);
    for row in &COMPLETION_ROWS {
        complete_job(&rt, alloc, &handlers, row)?;
    }
    Ok(())
}

#[test]
fn each_call_calls_its_closure_once(rt: HostRuntime) -> Result<(), Fail> {
    let alloc = rt.alloc();
    let heads = Arc::new(alloc, AtomicU64::new(0))?;
    let ends = Arc::new(alloc, AtomicU64::new(0))?;
    let head_calls = heads.clone()?;
    let end_calls = ends.clone()?;
    let mut headers = Vec::new(alloc);
    headers.push(HeaderFn::new(
        DISCARDING,
        Box::new(alloc, move |given: &HeaderIn| {
            head_calls.fetch_add(1, Ordering::SeqCst);
            nowhere(given)
        })?,
    ))?;
    let mut completions = Vec::new(alloc);
    completions.push(CompletionFn::new(
        CompletionRule::Reversed,
        Box::new(alloc, move |user: u32, _buffer: &[u8]| {
            end_calls.fetch_add(1, Ordering::SeqCst);
            Effect::Reversed { at: user }
        })?,
    ))?;
    let handlers = Handlers::new(headers, completions);
    ask_header(&rt, &handlers, &(0, 5, ONE, None, Some(1), 0));
    assert_eq!(rt;
        (heads.load(Ordering::SeqCst), ends.load(Ordering::SeqCst)),
        (1, 0)
    );
    complete_job(
        &rt,
        alloc,
        &handlers,
        &(0, 9, b"\x07", Effect::Reversed { at: 9 }),
    )?;
    assert_eq!(rt;
        (heads.load(Ordering::SeqCst), ends.load(Ordering::SeqCst)),
        (1, 1)
    );
    Ok(())
}
