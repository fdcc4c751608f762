//! Why a text is not compiled.

use check_scope::CheckFault;
use flat_compile::CompileFault;
use silq_parse::ParseFault;

/// Why a text is not compiled.
#[derive(Drop)]
pub enum TextFault {
    /// It is no program.
    Parse(ParseFault),
    /// It breaks a rule, has something that is not supported, or passes a limit of the walk.
    Check(CheckFault),
    /// Its entry is not compiled, or the sink failed.
    Compile(CompileFault),
}
