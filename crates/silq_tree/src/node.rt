//! The nodes of a syntax tree. A node names its parts by their numbers in the arena.

use crate::items::{ExprIds, NameIds, ParamNodes, StmtIds, TypeNodes};

/// The number of a name.
#[derive(Clone, Copy, PartialEq, Eq, Hash)]
pub struct NameId {
    pub number: u32,
}

/// The number of an expression.
#[derive(Clone, Copy, PartialEq, Eq, Hash)]
pub struct ExprId {
    pub number: u32,
}

/// The number of a statement.
#[derive(Clone, Copy, PartialEq, Eq, Hash)]
pub struct StmtId {
    pub number: u32,
}

/// The number of a function.
#[derive(Clone, Copy, PartialEq, Eq, Hash)]
pub struct FunId {
    pub number: u32,
}

/// A place in the text: line and column, both from 1; a column counts characters.
#[derive(Clone, Copy, PartialEq, Eq)]
pub struct Spot {
    pub line: u32,
    pub col: u32,
}

/// What a function may do.
#[derive(Clone, Copy, PartialEq, Eq)]
pub enum Mark {
    /// No mark.
    Plain,
    /// `mfree`: no measurement.
    Mfree,
    /// `qfree`: permutes basis states.
    Qfree,
    /// `lifted`: `qfree` with parameters that are all const.
    Lifted,
}

/// How an update changes its target.
#[derive(Clone, Copy, PartialEq, Eq)]
pub enum UpdateOp {
    /// `+=`
    Add,
    /// `-=`
    Sub,
    /// `^=`
    Xor,
}

/// A sign before its operand.
#[derive(Clone, Copy, PartialEq, Eq)]
pub enum UnaryOp {
    /// `!`
    Not,
    /// `-`
    Neg,
}

/// A sign between its operands.
#[derive(Clone, Copy, PartialEq, Eq)]
pub enum BinaryOp {
    /// `||`
    Or,
    /// `&&`
    And,
    /// `==`
    Eq,
    /// `!=`
    Ne,
    /// `<`
    Lt,
    /// `<=`
    Le,
    /// `>`
    Gt,
    /// `>=`
    Ge,
    /// `+`
    Add,
    /// `-`
    Sub,
    /// `*`
    Mul,
    /// `/`
    Div,
}

/// A scalar type as it is written.
#[derive(Clone, Copy, PartialEq, Eq)]
pub enum ScalarNode {
    /// `B`
    Bit,
    /// `uint` with its width.
    UInt(ExprId),
    /// `int` with its width.
    Int(ExprId),
}

/// A variable with up to two indexes; a second one only behind a first.
#[derive(Clone, Copy, PartialEq, Eq)]
pub struct PlaceNode {
    pub name: NameId,
    pub first: Option<ExprId>,
    pub second: Option<ExprId>,
}

/// A type as it is written.
#[derive(Clone, Copy, PartialEq, Eq)]
pub struct TypeNode {
    /// Whether it has the sign `!`.
    pub classical: bool,
    pub scalar: ScalarNode,
    /// The length of an array.
    pub size: Option<ExprId>,
    pub at: Spot,
}

/// A parameter of a function.
#[derive(Clone, Copy, PartialEq, Eq)]
pub struct ParamNode {
    /// Whether it is `const`.
    pub held: bool,
    pub name: NameId,
    pub ty: TypeNode,
    pub at: Spot,
}

/// A block.
#[derive(Drop)]
pub struct Block {
    pub items: StmtIds,
    /// The closing brace; for a missing `else`, that of the block before it.
    pub end: Spot,
}

/// What stands behind `else`; where there is no `else`, an empty block.
#[derive(Drop)]
pub enum Else {
    Block(Block),
    /// A statement; the grammar has an `If` there.
    Choice(StmtId),
}

/// A function.
#[derive(Drop)]
pub struct Fun {
    pub name: NameId,
    pub statics: NameIds,
    pub params: ParamNodes,
    pub mark: Mark,
    /// The types of the results; none for the unit type.
    pub results: TypeNodes,
    pub body: Block,
    pub at: Spot,
}

/// A statement. `at` is its first token.
#[derive(Drop)]
pub enum Stmt {
    /// `:=` at a variable or a part.
    Assign {
        target: PlaceNode,
        value: ExprId,
        at: Spot,
    },
    /// `:=` at a tuple of names.
    Spread {
        names: NameIds,
        value: ExprId,
        at: Spot,
    },
    /// `+=`, `-=` or `^=`.
    Update {
        target: PlaceNode,
        op: UpdateOp,
        value: ExprId,
        at: Spot,
    },
    Forget {
        name: NameId,
        value: Option<ExprId>,
        at: Spot,
    },
    Phase {
        angle: ExprId,
        at: Spot,
    },
    If {
        cond: ExprId,
        then: Block,
        other: Else,
        at: Spot,
    },
    For {
        name: NameId,
        low: ExprId,
        high: ExprId,
        body: Block,
        at: Spot,
    },
    Return {
        value: Option<ExprId>,
        at: Spot,
    },
    /// A call; the grammar has a `Call` expression there.
    Call {
        call: ExprId,
        at: Spot,
    },
}

/// An expression. `at` is its first token.
#[derive(Drop)]
pub enum Expr {
    /// A number, with or without a type.
    Number {
        value: i64,
        ty: Option<ScalarNode>,
        at: Spot,
    },
    /// `true` or `false`.
    Truth {
        value: bool,
        at: Spot,
    },
    Pi {
        at: Spot,
    },
    Place {
        place: PlaceNode,
        at: Spot,
    },
    Call {
        fun: NameId,
        statics: ExprIds,
        args: ExprIds,
        at: Spot,
    },
    Tuple {
        items: ExprIds,
        at: Spot,
    },
    Unary {
        op: UnaryOp,
        arg: ExprId,
        at: Spot,
    },
    Binary {
        op: BinaryOp,
        left: ExprId,
        right: ExprId,
        at: Spot,
    },
}
