//! A handler under way: the body of its function, and the lines of its transition.

use crate::random::Random;
use crate::slip::Slip;
use std::alloc::{AllocError, Global};
use std::fmt;

/// A number that both texts have: a constant, a parameter, or what a line of both defines.
#[derive(Clone, Copy, PartialEq, Eq)]
pub(crate) enum Value {
    Constant(u64),
    Parameter(u32),
    Local(u32),
}

/// A value as an operand of the kernel.
#[derive(Clone, Copy)]
pub(crate) struct Operand(pub Value);

impl fmt::Display for Operand {
    fn fmt<W: fmt::Write>(&self, f: &mut fmt::Formatter<W>) -> fmt::Result {
        match self.0 {
            Value::Constant(number) => write!(f, "{number}"),
            Value::Parameter(place) => write!(f, "%x{place}"),
            Value::Local(place) => write!(f, "%v{place}"),
        }
    }
}

/// A value of a width as a term of the specification.
#[derive(Clone, Copy)]
pub(crate) struct Term(pub Value, pub u32);

impl fmt::Display for Term {
    fn fmt<W: fmt::Write>(&self, f: &mut fmt::Formatter<W>) -> fmt::Result {
        let width = self.1;
        match self.0 {
            Value::Constant(number) => write!(f, "BitVecVal({number}, {width})"),
            Value::Parameter(place) => write!(f, "x{place}"),
            Value::Local(place) => write!(f, "v{place}"),
        }
    }
}

/// A handler under way.
#[derive(Drop)]
pub(crate) struct Draft {
    pub alloc: Global,
    pub random: Random,
    /// What is to be done wrong.
    slip: Slip,
    has_slipped: bool,
    /// The width of the numbers that it computes with.
    pub width: u32,
    /// The body of the function, from behind its head.
    pub code: String,
    /// The lines of the transition, from behind its copy.
    pub lines: String,
    next: u32,
}

impl Draft {
    pub(crate) fn new(alloc: Global, random: Random, slip: Slip, width: u32) -> Draft {
        Draft {
            alloc,
            random,
            slip,
            has_slipped: false,
            width,
            code: String::new(alloc),
            lines: String::new(alloc),
            next: 0,
        }
    }

    /// Whether this is to be done wrong here: in two of three places where it can be.
    pub(crate) fn slips(&mut self, slip: Slip) -> bool {
        if self.slip != slip || self.random.once_in(3) {
            return false;
        }
        self.has_slipped = true;
        true
    }

    /// Whether all is as it is to be: something is wrong, if it is to be.
    pub(crate) fn is_done(&self) -> bool {
        self.has_slipped || self.slip == Slip::Nothing
    }

    /// Adds a line to the body of the function.
    pub(crate) fn put_code(&mut self, line: &str) -> Result<(), AllocError> {
        self.code.push_str("  ")?;
        self.code.push_str(line)?;
        self.code.push_str("\n")
    }

    /// Adds a label to the body of the function.
    pub(crate) fn put_label(&mut self, label: &str) -> Result<(), AllocError> {
        self.code.push_str(label)?;
        self.code.push_str(":\n")
    }

    /// Adds a line to the transition.
    pub(crate) fn put_line(&mut self, line: &str) -> Result<(), AllocError> {
        self.lines.push_str("    ")?;
        self.lines.push_str(line)?;
        self.lines.push_str("\n")
    }

    /// A new value.
    fn fresh(&mut self) -> u32 {
        let place = self.next;
        self.next = place.saturating_add(1);
        place
    }

    /// Defines a value of the kernel alone.
    pub(crate) fn compute(&mut self, instruction: &str) -> Result<Value, AllocError> {
        let alloc = self.alloc;
        let place = self.fresh();
        let line = format!(in alloc; "%v{place} = {instruction}")?;
        self.put_code(line.as_str())?;
        Ok(Value::Local(place))
    }

    /// Defines a value in both texts.
    pub(crate) fn define(&mut self, instruction: &str, term: &str) -> Result<Value, AllocError> {
        let alloc = self.alloc;
        let place = self.fresh();
        let code = format!(in alloc; "%v{place} = {instruction}")?;
        self.put_code(code.as_str())?;
        let line = format!(in alloc; "v{place} = {term}")?;
        self.put_line(line.as_str())?;
        Ok(Value::Local(place))
    }
}
