//! Texts as programs.

ghost use Rattle.std.specs.Prelude.{◌≡◌, ◌⊎◌, None, Some, IfOk, IfErr, OnOk};
ghost use Rattle.silq_grammar.specs.Outcome.{Outcome};
ghost use Rattle.silq_parse.specs.declared.fault.ParseFault.TheVariants as faults;
ghost use Rattle.silq_parse.specs.Endings.{ending_of};
ghost use Rattle.silq_parse.specs.Faults.{fault_by, first_fault};
ghost use Rattle.silq_parse.specs.Stands.{StandsFor};
ghost use Rattle.expr_parse.specs.Stops.{StopsAt};

use crate::fault::ParseFault;
use crate::lexed::{Lexed, lex};
use crate::tokens::parse_tokens;
use expr_parse::stop::Stop;
use silq_grammar::Token;
use silq_lex::{LexFault, Place};
use silq_tree::{Program, Spot};
use std::alloc::Global;

/// The most bytes of a text.
const MOST_BYTES: usize = 1_048_576;

/// The program that a text is, or the first fault in the order of the text.
///
/// At one token a `Syntax` comes before a `Deep`; `Long` comes before all others. A `Memory` may come at any time.
pub fn parse(alloc: Global, src: &str) -> Result<Program, ParseFault>
    ensures program { IfOk result (λ program. StandsFor src.now program.tree program.names program.funs) }
    ensures fine { OnOk result (first_fault src.now ≡ None) }
    ensures fault { IfErr result (λ fault. (fault ≡ faults.Memory) ⊎ (first_fault src.now ≡ Some fault)) }
{
    if src.len() > MOST_BYTES {
        return Err(ParseFault::Long);
    }
    let Ok(lexed) = lex(alloc, src) else {
        return Err(ParseFault::Memory);
    };
    match parse_tokens(alloc, lexed.tokens.as_slice()) {
        Err(stop) => Err(fault_of(stop, lexed.ending)),
        Ok((tree, funs)) => match lexed.ending {
            Err(fault) => Err(ParseFault::Lex(fault)),
            Ok(_) => Ok(Program {
                tree,
                names: lexed.names,
                funs,
            }),
        },
    }
}

/// The fault of a stop, where the tokens end so.
fn fault_of(stop: Stop, ending: Result<Place, LexFault>) -> ParseFault
    ensures { (outcome : Outcome) → StopsAt outcome stop.entry → (result ≡ faults.Memory) ⊎ (fault_by outcome (ending_of ending) ≡ Some result) }
{
    match stop {
        Stop::Memory => ParseFault::Memory,
        Stop::Syntax([]) | Stop::Deep([]) => match ending {
            Ok(place) => ParseFault::Syntax {
                line: place.line,
                col: place.col,
            },
            Err(fault) => ParseFault::Lex(fault),
        },
        Stop::Syntax([token, ..]) => {
            let at = token.at();
            ParseFault::Syntax {
                line: at.line,
                col: at.col,
            }
        }
        Stop::Deep([token, ..]) => {
            let at = token.at();
            ParseFault::Deep {
                line: at.line,
                col: at.col,
            }
        }
    }
}
