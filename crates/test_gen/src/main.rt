#![tactic(auto)]
//! Prints the program of four lines that the number 7 gives, as told by hand, and whether the longest program is made to its end.

use silq_gen::generated;
use std::io;

fn main(rt: HostRuntime) -> io::Result<()> {
    let alloc = rt.alloc();
    print!(rt; "{}", generated(alloc, 7, 4)?)?;
    let longest = generated(alloc, 999_999_999_999_999_999, 10_000)?;
    println!(rt; "{}", longest.ends_with("\nreturn x;\n}\n"))
}
