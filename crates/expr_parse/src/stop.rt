//! Why a function of the parser stops.

ghost use Rattle.std.specs.Prelude.{◌≡◌, ◌+◌, MatchResult};
ghost use Rattle.silq_grammar.specs.Outcome.{Deep};
ghost use Rattle.expr_parse.specs.Stops.{StopsAt};
ghost use Rattle.expr_parse.specs.declared.stop.Stop.TheVariants as stops;

use silq_grammar::Token;
use std::alloc::AllocError;

/// A fault at the first of the tokens that are left; where none are left, at the text's end.
#[derive(Drop)]
pub enum Stop<'t> {
    /// The token cannot come.
    Syntax(&'t [Token]),
    /// The nest goes above its limit.
    Deep(&'t [Token]),
    /// There is not enough memory.
    Memory,
}

impl<'t> From<AllocError> for Stop<'t> {
    ghost from_gives = { λ _ stop. stop ≡ stops.Memory };

    fn from(_: AllocError) -> Self {
        Stop::Memory
    }
}

/// The room inside one more construct, which the first of the tokens opens.
pub fn deeper<'t>(tokens: &'t [Token], room: u32) -> Result<u32, Stop<'t>>
    ensures { MatchResult result (λ inside. inside + 1 ≡ room) (λ stop. (room ≡ 0) × StopsAt (Deep tokens.now) stop) }
{
    if room == 0 {
        return Err(Stop::Deep(tokens));
    }
    Ok(room - 1)
}
