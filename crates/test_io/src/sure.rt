//! Files and a sink that never fail.

use crate::reads::by_twos;
use silq_io::{Files, Sink, SureFiles, SureSink};

#[test]
fn no_take_fails(rt: HostRuntime) {
    let mut files = SureFiles::new(b"abc");
    let first = by_twos(&mut files, "a");
    let mut byte = [0u8; 1];
    let begun = files.begin("b");
    let taken = [files.take("b", &mut byte), files.take("a", &mut byte)];
    assert!(rt; first == (Ok(()), [Ok(0), Ok(2), Ok(1), Ok(0)], [b'c', b'b']));
    assert!(rt; begun == Ok(()) && taken == [Ok(1), Ok(1)] && byte == [b'b']);
}

#[test]
fn no_put_fails(rt: HostRuntime) {
    let mut row = [0u8; 2];
    let mut out = SureSink::new(&mut row);
    let put = [out.put(b"x"), out.put(b"yz")];
    assert!(rt; put == [Ok(1), Ok(2)] && out.rest() == 1);
    assert!(rt; out.bytes() == b"xy".as_slice());
}
