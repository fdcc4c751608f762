//! Parts: which are the same, and which overlap.

ghost use Rattle.std.specs.Prelude.{◌≡◌, ◌&&◌, not};
ghost use Rattle.silq_mean.specs.Written.{is_empty};
ghost use Rattle.check_scope.specs.Context.{indices, is_prefix as prefix_of, listed, overlaps as overlap_of, overlaps_any as overlaps_some, same_index as equal_index, same_part as equal_part};

use silq_types::{Part, Var};

/// Whether both are the same index value, or none.
fn same_index(a: Option<i64>, b: Option<i64>) -> bool
    ensures { result ≡ equal_index a b }
{
    match a {
        None => b.is_none(),
        Some(i) => match b {
            None => false,
            Some(j) => i == j,
        },
    }
}

/// Whether both name the same part of the same variable.
pub(crate) fn same_part(p: Part, q: Part) -> bool
    ensures { result ≡ equal_part p q }
{
    p.name.number == q.name.number && same_index(p.first, q.first) && same_index(p.second, q.second)
}

/// Whether there is no index value, or the same one as the other.
fn is_none_or(a: Option<i64>, b: Option<i64>) -> bool
    ensures { result ≡ prefix_of (listed a) (listed b) }
{
    match a {
        None => true,
        Some(i) => match b {
            None => false,
            Some(j) => i == j,
        },
    }
}

/// Whether the index values of the first begin those of the second.
fn is_prefix(p: Part, q: Part) -> bool
    ensures { result ≡ prefix_of (indices p) (indices q) }
{
    match p.first {
        None => match q.first {
            None => is_none_or(p.second, q.second),
            Some(j) => is_none_or(p.second, Some(j)),
        },
        Some(i) => match q.first {
            None => p.second.is_none() && is_none_or(Some(i), q.second),
            Some(j) => i == j && is_none_or(p.second, q.second),
        },
    }
}

/// Whether one of them is a part of the other, or both are the same.
pub(crate) fn overlaps(p: Part, q: Part) -> bool
    ensures { result ≡ overlap_of p q }
{
    p.name.number == q.name.number && (is_prefix(p, q) || is_prefix(q, p))
}

/// Whether the variable is a part that was taken out, and another one than this, which it overlaps.
pub(crate) fn is_in_the_way(var: Var, part: Part) -> bool
    ensures { result ≡ (not (is_empty (indices var.part)) && not (equal_part var.part part) && overlap_of var.part part) }
{
    (var.part.first.is_some() || var.part.second.is_some())
        && !same_part(var.part, part)
        && overlaps(var.part, part)
}

/// Whether one of the first overlaps the second.
pub(crate) fn overlaps_any(parts: &[Part], part: Part) -> bool
    ensures { result ≡ overlaps_some parts.now part }
{
    for held in parts {
        if overlaps(*held, part) {
            return true;
        }
    }
    false
}
