use lapi_base::Status;
use lapi_handlers::Handlers;
use lapi_io::{CountSink, MemSink, SureSource};
use lapi_report::write_packet;
use lapi_tool::{run_counted, run_in_memory};
use std::test::Fail;

const SMALLEST: &str =
    "lapi 1\ntasks 2 memory 64 counters 4 workers 1\ntask 0\ntask 1\nschedule\n0 poll 0\ndone\n";

/// Its trace.
const DID: &str = "0 poll 0 : did\n";

#[test]
fn a_run_may_be_counted_or_held_and_no_bytes_be_shown(rt: HostRuntime) -> Result<(), Fail> {
    let alloc = rt.alloc();
    let mut words = Vec::new(alloc);
    words.push(String::from_str(alloc, "trace")?)?;
    let mut source = SureSource::new(Vec::from_slice(alloc, SMALLEST.as_bytes())?);
    let mut sink = CountSink::new();
    let handlers = Handlers::new(Vec::new(alloc), Vec::new(alloc));
    let status = run_counted(alloc, &words, &mut source, &mut sink, &handlers);
    assert_eq!(rt; status, Status::Ok);
    assert_eq!(rt; sink.taken(), DID.len() as u64);

    let mut source = SureSource::new(Vec::from_slice(alloc, SMALLEST.as_bytes())?);
    let mut sink = MemSink::new(alloc, 4096, 7, Vec::new(alloc))?;
    let status = run_in_memory(alloc, &words, &mut source, &mut sink, &handlers);
    assert_eq!(rt; status, Status::Ok);
    assert_eq!(rt; sink.held(), DID.as_bytes());

    let mut sink = MemSink::new(alloc, 4096, 7, Vec::new(alloc))?;
    assert_eq!(rt; write_packet(b"", &mut sink), Ok(()));
    assert_eq!(rt; sink.held(), b"bad 0 1 Short\n".as_slice());
    Ok(())
}
