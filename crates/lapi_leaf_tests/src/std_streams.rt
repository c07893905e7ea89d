use lapi_io::{Failed, ReadAll, StdSink, StdSource, read_all, write_all};
use std::io;
use std::io::{Read, Write};
use std::test::Fail;

// Gives its bytes two at a time, but its second read fails.
#[derive(Drop)]
struct StutteringReader {
    bytes: &'static [u8],
    calls: u64,
}

impl Read for StutteringReader {
    fn read(&mut self, buf: &mut [u8]) -> io::Result<usize> {
        self.calls = self.calls.saturating_add(1);
        if self.calls == 2 {
            return Err(io::ErrorKind::Other.into());
        }
        let n = self.bytes.len().min(buf.len()).min(2);
        buf[..n].copy_from_slice(&self.bytes[..n]);
        self.bytes = &self.bytes[n..];
        Ok(n)
    }
}

// Takes bytes two at a time, but its second write fails, and its fourth takes nothing.
#[derive(Drop)]
struct StutteringWriter {
    held: Vec<u8>,
    calls: u64,
}

impl Write for StutteringWriter {
    fn write(&mut self, buf: &[u8]) -> io::Result<usize> {
        self.calls = self.calls.saturating_add(1);
        match self.calls {
            2 => Err(io::ErrorKind::Other.into()),
            4 => Ok(0),
            _ => {
                let n = buf.len().min(2);
                self.held.extend_from_slice(&buf[..n])?;
                Ok(n)
            }
        }
    }

    fn flush(&mut self) -> io::Result<()> {
        Ok(())
    }
}

#[test]
fn readers_and_writers_of_std_go_on_after_a_fault(rt: HostRuntime) -> Result<(), Fail> {
    let mut source = StdSource::new(StutteringReader {
        bytes: b"abcdefg",
        calls: 0,
    });
    let failed = read_all(rt.alloc(), &mut source, 7);
    assert_eq!(rt; failed, Err(ReadAll::Failed));
    let rest = read_all(rt.alloc(), &mut source, 5)?;
    assert_eq!(rt; rest.as_slice(), b"cdefg".as_slice());

    let mut writer = StutteringWriter {
        held: Vec::new(rt.alloc()),
        calls: 0,
    };
    let mut sink = StdSink::new(&mut writer);
    assert_eq!(rt; write_all(&mut sink, b"abcdefg"), Err(Failed));
    assert_eq!(rt; write_all(&mut sink, b"cdefg"), Err(Failed));
    assert_eq!(rt; write_all(&mut sink, b"efg"), Ok(()));
    assert_eq!(rt; writer.held.as_slice(), b"abcdefg".as_slice());
    Ok(())
}
