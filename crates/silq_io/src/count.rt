//! Counts of faults and of calls.

ghost use Rattle.std.specs.Prelude.{◌≡◌};
ghost use Rattle.silq_io.specs.Counts.{raised};

/// One more, but the greatest u64 stays.
pub(crate) fn one_more(count: u64) -> u64
    ensures { result ≡ raised count }
{
    count.saturating_add(1)
}
