//! The words of a command.

use silq_io::Words;
use std::test::Fail;

#[test]
fn words_are_kept_in_order(rt: HostRuntime) -> Result<(), Fail> {
    let mut words = Words::new(rt.alloc());
    let empty = words.is_empty();
    words.push("compile")?;
    words.push("")?;
    assert!(rt; empty && words.len() == 2 && words.get(2).is_none());
    assert!(rt; words.get(0) == Some("compile") && words.get(1) == Some(""));
    Ok(())
}
