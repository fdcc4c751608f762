//! Places, and what is asked of values in turn.

ghost use Rattle.std.specs.Prelude.{◌≡◌, length, drop, IfOk};
ghost use Rattle.silq_tree.specs.Children.{place_exprs, AreExprsBelow, HasFirst};
ghost use Rattle.silq_mean.specs.Meaning.{need_or};
ghost use Rattle.tree_walk.specs.Seen.{indices_in};

use crate::body::Body;
use crate::written::static_value;
use check_scope::Library;
use silq_tree::PlaceNode;
use silq_types::{List, Need};
use std::alloc::AllocError;

/// The values of the indices of a place.
pub fn index_values(
    library: &Library,
    body: &Body,
    place: PlaceNode,
) -> Result<List<i64>, AllocError>
    requires parts { AreExprsBelow (length library.now.nodes.exprs) (place_exprs place) }
    requires first { HasFirst place }
    ensures { IfOk result (λ vs. vs ≡ indices_in library.now body.now place) }
{
    let mut indices = List::new(library.alloc());
    if let Some(i) = place.first {
        indices.push(static_value(library.tree(), &body.statics, i))?;
        if let Some(j) = place.second {
            indices.push(static_value(library.tree(), &body.statics, j))?;
        }
    }
    Ok(indices)
}

/// The first use that is asked, or another one.
pub fn need_or(other: Need, asked: &[Need]) -> Need
    ensures { result ≡ need_or other asked.now }
{
    match asked {
        [] => other,
        [need, ..] => *need,
    }
}

/// What stands behind the first item, if there is one.
pub fn behind_first<T>(items: &[T]) -> &[T]
    ensures { result.now ≡ drop 1 items.now }
{
    match items {
        [] => items,
        [_, rest @ ..] => rest,
    }
}
