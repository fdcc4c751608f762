//! Files and sinks that take one byte at a time.

ghost use Rattle.std.specs.Prelude.{◌≡◌, ℕ, List};

use silq_io::{Failed, Files, Sink};

/// Files that give, and a sink that takes, one byte at a time.
#[derive(Drop)]
pub struct Slow<T> {
    pub inner: T,
}

impl<T: Files> Files for Slow<T> {
    ghost held = { λ slow. T.held slow.inner };

    ghost left = { λ slow. T.left slow.inner };

    ghost faults = { λ slow. T.faults slow.inner };

    fn begin(&mut self, name: &str) -> Result<(), Failed> {
        self.inner.begin(name)
    }

    fn take(&mut self, name: &str, buf: &mut [u8]) -> Result<usize, Failed> {
        let end = buf.len().min(1);
        self.inner.take(name, &mut buf[..end])
    }

    ghost left_is_told = { λ slow. T.left_is_told slow.inner };
}

impl<T: Sink> Sink for Slow<T> {
    ghost put_so_far = { λ slow. T.put_so_far slow.inner };

    ghost faults = { λ slow. T.faults slow.inner };

    fn put(&mut self, bytes: &[u8]) -> Result<usize, Failed> {
        let end = bytes.len().min(1);
        self.inner.put(&bytes[..end])
    }
}
