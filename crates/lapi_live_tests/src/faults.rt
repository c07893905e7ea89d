use lapi_base::Status;
use lapi_handlers::Handlers;
use lapi_io::{MemSink, MemSource};
use lapi_live::OpenGate;
use lapi_tool::run_live;
use std::alloc::Global;
use std::process::Abort;
use std::sync::Wait;
use std::test::Fail;
use std::thread::Threads;

/// Task 0 puts eight bytes at task 1; one lane has all lines.
const SMALLEST: &str = "lapi 1
tasks 2 memory 64 counters 4 workers 1
task 0
store 0 6162636465666768
put 1 16 0 8 - - -
task 1
schedule
0 step 0
0 step 0
0 poll 0
0 deliver 0 1 0
0 deliver 1 0 0
done
";

const TOLD: &str = "took 0 step 0
took 0 step 0
took 0 poll 0
took 0 deliver 0 1 0
took 0 deliver 1 0 0
lines 5
events 4
task 0 at 2 of 2 queued 0 running 0
memory 0 0000 61626364656667680000000000000000
task 1 at 0 of 0 queued 0 running 0
memory 1 0010 61626364656667680000000000000000
quiet yes
";

/// A read gives at most this many bytes.
const READ_STEP: usize = 100;

/// Two reads give its 177 bytes, and one more finds the end.
const READS: u64 = 3;

/// A write takes at most this many bytes.
const WRITE_STEP: usize = 7;

/// The writes of its twelve lines; the first two of the report are one piece.
const WRITES: u64 = 43;

const ROOM: usize = 65_536;

/// Runs the lane with the reads and the writes that fail by their numbers.
fn smallest<R: Abort + Threads + Wait + Sync>(
    rt: &R,
    alloc: Global,
    failing_reads: Vec<u64>,
    failing_writes: Vec<u64>,
) -> Result<(Status, MemSink), Fail> {
    let input = Vec::from_slice(alloc, SMALLEST.as_bytes())?;
    let mut source = MemSource::new(input, READ_STEP, failing_reads);
    let mut sink = MemSink::new(alloc, ROOM, WRITE_STEP, failing_writes)?;
    let mut words = Vec::new(alloc);
    words.push(String::from_str(alloc, "live")?)?;
    let handlers = Handlers::new(Vec::new(alloc), Vec::new(alloc));
    let status = run_live(
        rt,
        alloc,
        &words,
        &mut source,
        &mut sink,
        &handlers,
        &OpenGate,
    );
    Ok((status, sink))
}

#[test]
fn each_read_fails_once(rt: HostRuntime) -> Result<(), Fail> {
    let alloc = rt.alloc();
    for k in 0..READS {
        let (status, sink) = smallest(&rt, alloc, [k].to_vec(alloc)?, Vec::new(alloc))?;
        assert_eq!(rt; status, Status::SourceFault, "read {k}");
        assert_eq!(rt; sink.held(), b"".as_slice(), "read {k}");
    }
    let (status, sink) = smallest(&rt, alloc, [READS].to_vec(alloc)?, Vec::new(alloc))?;
    assert_eq!(rt; status, Status::Ok);
    assert_eq!(rt; sink.held(), TOLD.as_bytes());
    Ok(())
}

#[test]
fn each_write_fails_once(rt: HostRuntime) -> Result<(), Fail> {
    let alloc = rt.alloc();
    let mut held_before = 0;
    for k in 0..WRITES {
        let (status, sink) = smallest(&rt, alloc, Vec::new(alloc), [k].to_vec(alloc)?)?;
        let held = sink.held();
        assert_eq!(rt; status, Status::SinkFault, "write {k}");
        assert!(rt; TOLD.as_bytes().starts_with(held), "write {k}");
        // Each write before it took a piece more.
        assert!(rt; k == 0 || held_before < held.len(), "write {k}");
        held_before = held.len();
    }
    let (status, sink) = smallest(&rt, alloc, Vec::new(alloc), [WRITES].to_vec(alloc)?)?;
    assert_eq!(rt; status, Status::Ok);
    assert_eq!(rt; sink.held(), TOLD.as_bytes());
    Ok(())
}
