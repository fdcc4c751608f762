//! The count of statements, and their lines.

ghost use Rattle.std.specs.Prelude.{◌≡◌, IfOk, IfErr};
ghost use Rattle.bit_arith.specs.Calls.{Refused};
ghost use Rattle.flat_form.specs.Flat.{count_statement, on_line};

use crate::state::Flattening;
use silq_io::{LimitFault, LimitKind, OverLimit};

// How many statements a program may run, with calls inlined.
const MOST_INLINED: u32 = 1_000_000;

impl Flattening {
    /// Counts a statement on this line, and gives the line of the statement around it.
    pub fn begin_statement(&mut self, line: u32) -> Result<u32, LimitFault>
        ensures outer { IfOk result (λ outer. outer ≡ self.old.setting.line) }
        ensures ok { IfOk result (λ _. self.new ≡ on_line line (count_statement self.old)) }
        ensures refused { IfErr result (λ e. Refused e (count_statement self.old).built) }
    {
        if self.statements >= MOST_INLINED {
            return Err(LimitFault::Limit(OverLimit {
                which: LimitKind::Inlined,
                count: u64::from(MOST_INLINED) + 1,
            }));
        }
        self.statements += 1;
        Ok(self.builder.line(line))
    }

    /// Goes on in the statement around one, which is on this line.
    pub fn end_statement(&mut self, outer: u32)
        ensures { self.new ≡ on_line outer self.old }
    {
        self.builder.line(outer);
    }
}
