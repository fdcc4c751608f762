//! Vertices of a circuit graph, read as moves.

ghost use Rattle.std.specs.Prelude.{◌≡◌};
ghost use Rattle.graph_core.specs.Circuit.{IsVertex};
ghost use Rattle.move_plan.specs.AsMoves.{move_of};

use crate::moves::Move;
use crate::track::is_undone;
use flat_core::Flat;
use graph_core::Vertex;

/// The move of a vertex of the circuit graph: a step is done, by `Up` where it is undone again, or undone, or a wire
/// is freed.
pub fn move_of(flat: &Flat, v: Vertex) -> Move
    requires { IsVertex flat.now v }
    ensures { result ≡ move_of flat.now v }
{
    match v {
        Vertex::Forward(s) => {
            if is_undone(flat, s) {
                Move::Up(s)
            } else {
                Move::Do(s)
            }
        }
        Vertex::Reverse(s) => Move::Down(s),
        Vertex::Free(w) => Move::Free(w),
    }
}
