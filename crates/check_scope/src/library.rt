//! A program as its bodies see it.

ghost use Rattle.std.specs.Prelude.{◌≡◌, ◌<◌, length, option_map, IfOk, IfSome};
ghost use Rattle.silq_tree.specs.Arena.{expr_at, stmt_at};
ghost use Rattle.silq_tree.specs.Children.{fun_exprs, fun_stmts, AreExprsBelow, AreStmtsBelow};
ghost use Rattle.silq_tree.specs.Standing.{fun_grown};
ghost use Rattle.check_scope.specs.Library.{AreFunsBelow, function_at, before_at, found_at, names_at};
ghost use Rattle.silq_types.specs.Calls.{built_in, find_fun};
ghost use Rattle.silq_types.specs.Words.{built_ins, named, words_of};

use crate::name_index::NameIndex;
use silq_tree::{Fun, FunId, NameId, Names, Program, Tree};
use silq_types::BuiltIn;
use std::alloc::{AllocError, Global};
use std::marker::Model;

/// The built-in function with this name.
fn word_of(text: &str) -> Option<BuiltIn>
    ensures { result ≡ named built_ins text.now }
{
    match text {
        "H" => Some(BuiltIn::HGate),
        "X" => Some(BuiltIn::XGate),
        "Y" => Some(BuiltIn::YGate),
        "Z" => Some(BuiltIn::ZGate),
        "dup" => Some(BuiltIn::Dup),
        "measure" => Some(BuiltIn::Measure),
        "vector" => Some(BuiltIn::Vector),
        "rotX" => Some(BuiltIn::RotateX),
        "rotY" => Some(BuiltIn::RotateY),
        "rotZ" => Some(BuiltIn::RotateZ),
        _ => None,
    }
}

/// The built-in functions among these names. There is no memory for names that have no number.
fn built_in_words(alloc: Global, names: &Names) -> Result<Vec<(NameId, BuiltIn)>, AllocError>
    ensures { IfOk result (λ words. words.items ≡ words_of names.now) }
{
    let mut words = Vec::new(alloc);
    let len = u32::try_from(names.len()).map_err(|_| AllocError)?;
    for number in 0..len {
        let id = NameId { number };
        if let Some(word) = word_of(names.text(id)) {
            words.push((id, word))?;
        }
    }
    Ok(words)
}

/// The names of these functions.
fn function_names(alloc: Global, tree: &Tree, funs: &[FunId]) -> Result<NameIndex, AllocError>
    requires { AreFunsBelow (length tree.now.funs) funs.now }
    ensures { IfOk result (λ names. names ≡ names_at tree.now funs.now) }
{
    let mut names = NameIndex::new(alloc);
    for id in funs {
        names.push(tree.fun(*id).name)?;
    }
    Ok(names)
}

/// A program, with its functions and the built-in ones by name.
#[derive(Drop)]
pub struct Library {
    program: Program,
    words: Vec<(NameId, BuiltIn)>,
    // the names of the functions
    names: NameIndex,
    alloc: Global,
}

impl Model for Library {
    ghost use Rattle.check_scope.specs.Library.{Shelf, IsShelved};

    ghost Value = { Shelf };

    ghost view = { λ l. record { nodes = l.program.tree; words = l.words.items; funs = l.program.funs } };

    ghost invariant = { λ l. IsShelved l.program.tree l.program.funs l.names };
}

impl Library {
    /// The functions of a program, each of which is a node of its tree.
    pub fn new(alloc: Global, program: Program) -> Result<Library, AllocError>
        requires { AreFunsBelow (length program.tree.funs) program.funs }
        ensures { IfOk result (λ l. l ≡ record { nodes = program.tree; words = words_of program.names; funs = program.funs }) }
    {
        let words = built_in_words(alloc, &program.names)?;
        let names = function_names(alloc, &program.tree, program.funs.as_slice())?;
        Ok(Library {
            program,
            words,
            names,
            alloc,
        })
    }

    /// The allocator.
    pub fn alloc(&self) -> Global {
        self.alloc
    }

    /// The nodes.
    pub fn tree(&self) -> &Tree
        ensures { result.now ≡ self.now.nodes }
    {
        &self.program.tree
    }

    /// How many functions.
    pub fn len(&self) -> usize
        ensures { result ≡ length self.now.funs }
    {
        self.program.funs.len()
    }

    /// The function with a number, from 0.
    pub fn fun(&self, n: u32) -> &Fun
        requires { n < length self.now.funs }
        ensures parts { AreExprsBelow (length self.now.nodes.exprs) (fun_exprs result.now) }
        ensures body { AreStmtsBelow (length self.now.nodes.stmts) (fun_stmts result.now) }
        ensures tree { function_at self.now n ≡ fun_grown (expr_at self.now.nodes) (stmt_at self.now.nodes) result.now }
    {
        self.program
            .tree
            .fun(self.program.funs.as_slice()[n as usize])
    }

    /// The built-in function with this name.
    pub fn built_in(&self, name: NameId) -> Option<BuiltIn>
        ensures { result ≡ built_in self.now.words name }
    {
        for (word, built_in) in self.words.iter() {
            if word.number == name.number {
                return Some(*built_in);
            }
        }
        None
    }

    /// The number of the last function with this name before that with a number.
    pub fn find(&self, name: NameId, before: u32) -> Option<u32>
        ensures found { find_fun (before_at self.now before) name ≡ option_map (found_at self.now) result }
        ensures below { IfSome result (λ n. n < length self.now.funs) }
    {
        match self.names.last_before(name, before as usize) {
            None => None,
            Some(n) => Some(n as u32),
        }
    }
}
