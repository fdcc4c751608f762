//! The edge to the system. No clause can say what a file of the system holds.

use crate::reads::by_twos;
use silq_io::{DiskFiles, Failed, Files, Sink, StdSink};
use std::fs;
use std::io::{self, ErrorKind, Write};
use std::test::Fail;

/// Takes two bytes at a time; at its second call it takes none, and at its third it answers an error.
#[derive(Drop)]
struct Fake {
    calls: u8,
}

impl Write for Fake {
    fn write(&mut self, buf: &[u8]) -> io::Result<usize> {
        self.calls = self.calls.saturating_add(1);
        match self.calls {
            2 => Ok(0),
            3 => Err(io::Error::from(ErrorKind::BrokenPipe)),
            _ => Ok(buf.len().min(2)),
        }
    }

    fn flush(&mut self) -> io::Result<()> {
        Ok(())
    }
}

#[test]
fn an_output_that_takes_none_is_at_fault(rt: HostRuntime) {
    let mut out = StdSink::new(Fake { calls: 0 });
    let put = [
        out.put(b"abc"),
        out.put(b""),
        out.put(b"c"),
        out.put(b"c"),
        out.put(b"c"),
    ];
    assert!(rt; put == [Ok(2), Ok(0), Err(Failed), Err(Failed), Ok(1)]);
}

// A file is read that is named and no other, from its beginning; and none before one is begun.
#[test]
fn the_file_that_is_named_is_read(rt: HostRuntime) -> Result<(), Fail> {
    fs::write(&rt, "some.slq", "abc")?;
    fs::write(&rt, "other.slq", "vwxyz")?;
    let mut files = DiskFiles::new(&rt);
    let early = files.take("some.slq", &mut [0u8; 2]);
    let some = by_twos(&mut files, "some.slq");
    let missing = files.begin("none.slq");
    let other = by_twos(&mut files, "other.slq");
    fs::remove_file(&rt, "some.slq")?;
    fs::remove_file(&rt, "other.slq")?;
    assert!(rt; (early, missing) == (Err(Failed), Err(Failed)));
    assert!(rt; some == (Ok(()), [Ok(0), Ok(2), Ok(1), Ok(0)], [b'c', b'b']));
    assert!(rt; other == (Ok(()), [Ok(0), Ok(2), Ok(2), Ok(1)], [b'z', b'y']));
    Ok(())
}
