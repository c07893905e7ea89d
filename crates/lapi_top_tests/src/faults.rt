use lapi_base::Status;
use lapi_handlers::Handlers;
use lapi_io::{MemSink, MemSource};
use lapi_tool::run;
use std::alloc::Global;
use std::test::Fail;

/// Two tasks tell each other an address, put four bytes there, wait for their completion and meet.
const EXCHANGE: &str = "lapi 1
tasks 2 memory 64 counters 4 workers 1
task 0
store 0 11111111
address_init 16
put 1 @0 0 4 0 - 1
waitcntr 0 1
gfence
task 1
store 0 22222222
address_init 32
put 0 @0 0 4 0 - 1
waitcntr 0 1
gfence
schedule
0 step 0
0 step 1
0 step 0
0 step 1
0 poll 0
0 poll 1
0 deliver 0 1 0
0 deliver 1 0 0
0 deliver 1 0 1
0 deliver 0 1 1
0 step 0
0 step 1
0 step 0
0 step 1
0 poll 0
0 poll 1
0 deliver 0 1 2
0 deliver 1 0 2
0 deliver 1 0 3
0 deliver 0 1 3
0 poll 0
0 poll 1
0 deliver 0 1 4
0 deliver 1 0 4
0 deliver 1 0 5
0 deliver 0 1 5
0 step 0
0 step 1
0 step 0
0 step 1
0 poll 0
0 poll 1
0 deliver 0 1 6
0 deliver 1 0 6
0 deliver 1 0 7
0 deliver 0 1 7
0 step 0
0 step 1
done
";

const REPORT: &str = "lines 38
events 30
task 0 at 5 of 5 queued 0 running 0
counter 0 1 1
memory 0 0000 11111111000000000000000000000000
memory 0 0010 22222222000000000000000000000000
task 1 at 5 of 5 queued 0 running 0
counter 1 1 1
memory 1 0000 22222222000000000000000000000000
memory 1 0020 11111111000000000000000000000000
quiet yes
";

/// A read gives at most this many bytes.
const READ_STEP: usize = 100;

/// Seven reads give its 672 bytes, and one more finds the end.
const READS: u64 = 8;

/// A write takes at most this many bytes.
const WRITE_STEP: usize = 7;

/// The writes of its eleven lines; the first two are one piece.
const WRITES: u64 = 49;

const ROOM: usize = 65_536;

/// Runs the exchange with the reads and the writes that fail by their numbers.
fn exchange(
    alloc: Global,
    failing_reads: Vec<u64>,
    failing_writes: Vec<u64>,
) -> Result<(Status, MemSink), Fail> {
    let input = Vec::from_slice(alloc, EXCHANGE.as_bytes())?;
    let mut source = MemSource::new(input, READ_STEP, failing_reads);
    let mut sink = MemSink::new(alloc, ROOM, WRITE_STEP, failing_writes)?;
    let mut words = Vec::new(alloc);
    words.push(String::from_str(alloc, "run")?)?;
    let handlers = Handlers::new(Vec::new(alloc), Vec::new(alloc));
    let status = run(alloc, &words, &mut source, &mut sink, &handlers);
    Ok((status, sink))
}

#[test]
fn each_read_fails_once(rt: HostRuntime) -> Result<(), Fail> {
    let alloc = rt.alloc();
    for k in 0..READS {
        let (status, sink) = exchange(alloc, [k].to_vec(alloc)?, Vec::new(alloc))?;
        assert_eq!(rt; status, Status::SourceFault, "read {k}");
        assert_eq!(rt; sink.held(), b"".as_slice(), "read {k}");
    }
    let (status, sink) = exchange(alloc, [READS].to_vec(alloc)?, Vec::new(alloc))?;
    assert_eq!(rt; status, Status::Ok);
    assert_eq!(rt; sink.held(), REPORT.as_bytes());
    Ok(())
}

#[test]
fn each_write_fails_once(rt: HostRuntime) -> Result<(), Fail> {
    let alloc = rt.alloc();
    let mut held_before = 0;
    for k in 0..WRITES {
        let (status, sink) = exchange(alloc, Vec::new(alloc), [k].to_vec(alloc)?)?;
        let held = sink.held();
        assert_eq!(rt; status, Status::SinkFault, "write {k}");
        assert!(rt; REPORT.as_bytes().starts_with(held), "write {k}");
        // Each write before it took a piece more.
        assert!(rt; k == 0 || held_before < held.len(), "write {k}");
        held_before = held.len();
    }
    let (status, sink) = exchange(alloc, Vec::new(alloc), [WRITES].to_vec(alloc)?)?;
    assert_eq!(rt; status, Status::Ok);
    assert_eq!(rt; sink.held(), REPORT.as_bytes());
    Ok(())
}
