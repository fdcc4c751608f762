#![tactic(auto)]
//! The outside as silqc sees it: files that are read, sinks that are written to, and the words of a command.

pub(crate) mod count;
pub mod disk;
pub mod fault;
pub mod files;
pub mod limit;
pub mod memory;
pub mod sink;
pub mod sure;
pub mod words;

pub use disk::{DiskFiles, StdSink};
pub use fault::{Failed, SyntaxCause, What};
pub use files::Files;
pub use limit::{LimitFault, LimitKind, OverLimit};
pub use memory::{MemFiles, MemSink};
pub use sink::{Sink, put_all};
pub use sure::{SureFiles, SureSink};
pub use words::Words;
