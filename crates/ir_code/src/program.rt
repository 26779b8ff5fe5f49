//! Functions and objects.

use crate::act::Step;
use hk_seq::Seq;

/// The instructions of a block, in order.
#[derive(Drop)]
pub struct Block {
    pub steps: Seq<Step>,
}

/// A function: how many parameters and registers it has, the parameters first, and its blocks, none for a declared function.
#[derive(Drop)]
pub struct Code {
    pub parameters: u32,
    pub registers: u32,
    pub blocks: Seq<Block>,
}

/// What stores and alignments ask of an object.
#[derive(Clone, Copy, Debug, PartialEq, Eq)]
pub struct Object {
    pub constant: bool,
    pub align: u64,
}

/// The code of a kernel: its functions and its objects, in text order.
#[derive(Drop)]
pub struct Program {
    pub functions: Seq<Code>,
    pub objects: Seq<Object>,
}
