//! Files and a sink in memory, with calls that fail where they are told to.

use crate::reads::by_twos;
use silq_io::{Failed, Files, MemFiles, MemSink, Sink, put_all};
use std::alloc::{AllocError, Global};
use std::test::Fail;

// Files of which the first two have one name.
fn three_files(alloc: Global, fails: Vec<u64>) -> Result<MemFiles, AllocError> {
    let mut files = Vec::new(alloc);
    for (name, bytes) in [("a", "abc"), ("a", "x"), ("b", "")] {
        let bytes = bytes.as_bytes().to_vec(alloc)?;
        files.push((String::from_str(alloc, name)?, bytes))?;
    }
    MemFiles::new(alloc, files, fails)
}

#[test]
fn the_third_call_fails(rt: HostRuntime) -> Result<(), Fail> {
    let mut files = three_files(rt.alloc(), vec![in rt.alloc(); 3u64]?)?;
    let first = by_twos(&mut files, "a");
    let missing = files.begin("c");
    let empty = by_twos(&mut files, "b");
    assert!(rt; missing == Err(Failed));
    assert!(rt; first == (Ok(()), [Ok(0), Ok(2), Err(Failed), Ok(1)], [b'c', b'b']));
    assert!(rt; empty == (Ok(()), [Ok(0); 4], [0, 0]));
    Ok(())
}

#[test]
fn a_sink_takes_what_it_has_room_for(rt: HostRuntime) -> Result<(), Fail> {
    let mut out = MemSink::new(rt.alloc(), 5, vec![in rt.alloc(); 2u64]?)?;
    let put = [
        out.put(b"abc"),
        out.put(b""),
        out.put(b"defg"),
        out.put(b"defg"),
        out.put(b"f"),
    ];
    assert!(rt; put == [Ok(3), Ok(0), Err(Failed), Ok(2), Err(Failed)]);
    assert!(rt; out.bytes() == b"abcde".as_slice());
    Ok(())
}

#[test]
fn all_bytes_are_put_or_a_fault_is_told(rt: HostRuntime) -> Result<(), Fail> {
    let mut out = MemSink::new(rt.alloc(), 5, Vec::new(rt.alloc()))?;
    let put = [put_all(&mut out, b"abc"), put_all(&mut out, b"defg")];
    assert!(rt; put == [Ok(()), Err(Failed)] && out.bytes() == b"abcde".as_slice());
    Ok(())
}
