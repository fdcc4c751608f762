//! Programs.

use crate::items::FunIds;
use crate::names::Names;
use crate::tree::Tree;

/// A program: its nodes, its names, and its functions in the order of the file.
#[derive(Drop)]
pub struct Program {
    pub tree: Tree,
    pub names: Names,
    pub funs: FunIds,
}
