use lapi_io::{
    CountSink, Failed, MemSink, MemSource, ReadAll, Sink, Source, SureSource, read_all, write_all,
};
use std::test::Fail;

#[test]
fn a_source_goes_on_after_a_failed_read(rt: HostRuntime) -> Result<(), Fail> {
    let bytes = b"abcdefg".to_vec(rt.alloc())?;
    let fails = [1, 3].to_vec(rt.alloc())?;
    let mut source = MemSource::new(bytes, 3, fails);
    for _ in 0..2 {
        let failed = read_all(rt.alloc(), &mut source, 7);
        assert_eq!(rt; failed, Err(ReadAll::Failed));
    }
    let rest = read_all(rt.alloc(), &mut source, 7)?;
    assert_eq!(rt; rest.as_slice(), b"g".as_slice());

    let mut source = SureSource::new(b"abcdefg".to_vec(rt.alloc())?);
    let long = read_all(rt.alloc(), &mut source, 2);
    assert_eq!(rt; long, Err(ReadAll::Long));
    let mut buf = [0; 8];
    assert_eq!(rt; source.read(&mut buf), Ok(4));
    assert_eq!(rt; source.read(&mut buf), Ok(0));
    assert_eq!(rt; buf, *b"defg\0\0\0\0");
    Ok(())
}

#[test]
fn a_sink_goes_on_after_a_failed_write(rt: HostRuntime) -> Result<(), Fail> {
    let fails = [1, 3].to_vec(rt.alloc())?;
    let mut sink = MemSink::new(rt.alloc(), 8, 3, fails)?;
    assert_eq!(rt; write_all(&mut sink, b"abcdefg"), Err(Failed));
    assert_eq!(rt; write_all(&mut sink, b"defg"), Err(Failed));
    assert_eq!(rt; sink.held(), b"abcdef".as_slice());
    assert_eq!(rt; write_all(&mut sink, b"ghi"), Err(Failed));
    assert_eq!(rt; sink.held(), b"abcdefgh".as_slice());
    assert_eq!(rt; sink.write(b""), Ok(0));

    let mut count = CountSink::new();
    for piece in ["abc", "", "defgh"] {
        assert_eq!(rt; write_all(&mut count, piece.as_bytes()), Ok(()));
    }
    assert_eq!(rt; count.taken(), 8);
    Ok(())
}
