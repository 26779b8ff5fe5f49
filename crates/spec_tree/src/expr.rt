//! Expressions of a specification. The operators are those of SMT-LIB's theory of fixed-size bit-vectors.

ghost use Rattle.std.specs.Prelude.{◌≡◌};
ghost use Rattle.spec_tree.specs.View.{view_expr_list, view_exprs, view_step_list, view_steps};

use crate::sort::SizeList;
use spec_ast::{BinKind, UnKind};

/// A change of width. The numbers are bits or places of bits.
#[derive(Clone, Copy, Debug, PartialEq, Eq)]
pub enum ResizeKind {
    /// So many zeros more.
    ZeroExt(u32),
    /// So many copies of the sign more.
    SignExt(u32),
    /// The high and the low bit.
    Extract(u32, u32),
}

/// Which abstract state is read.
#[derive(Clone, Copy, Debug, PartialEq, Eq)]
pub enum StateName {
    /// The state that came in.
    Old,
    /// The copy, behind the writes of earlier lines.
    New,
}

/// An expression. A truth is a number of width 1.
#[derive(Drop)]
#[cycle(tree)]
pub enum Expr {
    /// A number: its width in bits, and its value.
    Const(u32, u64),
    /// A parameter of the handler by its place.
    Arg(u32),
    /// A variable by its place among those of the enclosing quantifiers, the outermost first, and the width of its sort. In a
    /// field's value the first places are those of the field's keys.
    Bound(u32, u32),
    /// A local name by its place.
    Local(u32),
    /// A field of a state by its place in the class, and the indices.
    Entry(StateName, u32, ExprList),
    /// Bytes of the kernel's memory.
    Kernel(Path),
    Un(UnKind, Box<Expr>),
    Bin(BinKind, Box<Expr>, Box<Expr>),
    /// The conjunction.
    All(ExprList),
    /// The disjunction.
    Any(ExprList),
    /// The second where the first holds, and the third where it does not.
    Choose(Box<Expr>, Box<Expr>, Box<Expr>),
    Resize(ResizeKind, Box<Expr>),
    /// The sizes of the variables, and what holds for all of their values.
    ForAll(SizeList, Box<Expr>),
    /// The sizes of the variables, and what holds for some of their values.
    Exists(SizeList, Box<Expr>),
}

/// Expressions in the order of the text.
#[derive(Drop)]
#[cycle(tree)]
pub struct ExprList {
    pub items: Vec<Expr>,
}

/// A path into the kernel's memory: `bytes` bytes, little endian, of the object at `base` and what the steps add.
#[derive(Drop)]
#[cycle(tree)]
pub struct Path {
    /// The object by its place.
    pub object: u32,
    /// Bytes from the object's begin.
    pub base: u64,
    pub steps: StepList,
    pub bytes: u32,
}

/// A step into an array: `count` elements that lie `stride` bytes apart.
#[derive(Drop)]
#[cycle(tree)]
pub struct PathStep {
    pub count: u64,
    pub stride: u64,
    pub index: Expr,
}

/// The steps of a path.
#[derive(Drop)]
#[cycle(tree)]
pub struct StepList {
    pub items: Vec<PathStep>,
}

impl ExprList {
    /// The list of these expressions.
    pub fn of(items: Vec<Expr>) -> ExprList
        ensures { view_expr_list result ≡ view_exprs items.items }
    {
        ExprList { items }
    }
}

impl StepList {
    /// The list of these steps.
    pub fn of(items: Vec<PathStep>) -> StepList
        ensures { view_step_list result ≡ view_steps items.items }
    {
        StepList { items }
    }
}
