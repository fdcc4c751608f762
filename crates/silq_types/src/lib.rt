#![tactic(auto)]
//! Types, values and signatures of Silq programs, built-in functions, the uses of values, and the rules of typing by name.

pub mod built_in;
pub mod known;
pub mod lists;
pub mod need;
pub mod signature;
pub mod types;
pub mod values;

pub use built_in::BuiltIn;
pub use known::Known;
pub use lists::{List, ParamList, ResultList, StaticList, TyList};
pub use need::Need;
pub use signature::{InstanceKey, Param, Returned, Signature};
pub use types::{Scalar, Shape, Ty};
pub use values::{Origin, Part, Value, Var};
