//! Why a text's table is not put.

use amp_run::RunFault;
use qasm_read::QasmFault;

/// Why the table of a text's circuit is not put.
#[derive(Clone, Copy, PartialEq, Eq)]
pub enum CircuitFault {
    /// The text spells no circuit. Nothing was put.
    Read(QasmFault),
    /// The circuit has no table for these bits, or memory ran out. Nothing was put.
    Run(RunFault),
    /// The sink failed. A proper front of the lines was put.
    Failed,
}
