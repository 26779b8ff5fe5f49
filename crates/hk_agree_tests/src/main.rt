//! A test as a program: drawn handlers, decided by clauses and by all cases.
//!
//! From fixed seeds kernels and specifications are drawn as texts, read by the readers, and decided in both ways. A line for each kind
//! of memory tells how many were accepted and rejected, and how many the two ways do not decide alike; the last line has the sums. With
//! the words `KIND PLACE` both texts of one handler are shown in place of that, with its counts.
#![tactic(auto)]

mod decided;
mod tally;

use crate::decided::{Decided, decide_both};
use crate::tally::Tally;
use hk_draw::{Shape, Texts, draw};
use hk_inputs::read;
use std::alloc::{AllocError, Global};
use std::{env, io};

/// Handlers on one kind of memory.
#[derive(Clone, Copy)]
struct Group {
    name: &'static str,
    shape: Shape,
    /// How many are drawn.
    count: u64,
    /// The seed of the first.
    seed: u64,
}

const GROUPS: &[Group] = &[
    Group {
        name: "nothing",
        shape: Shape::Nothing,
        count: 40,
        seed: 1_000,
    },
    Group {
        name: "byte",
        shape: Shape::Byte,
        count: 55,
        seed: 2_000,
    },
    Group {
        name: "flagged",
        shape: Shape::Flagged,
        count: 45,
        seed: 3_000,
    },
    Group {
        name: "halves",
        shape: Shape::Halves,
        count: 40,
        seed: 4_000,
    },
    Group {
        name: "bits",
        shape: Shape::Packed(1),
        count: 25,
        seed: 5_000,
    },
    Group {
        name: "quarters",
        shape: Shape::Packed(2),
        count: 35,
        seed: 6_000,
    },
    Group {
        name: "nibbles",
        shape: Shape::Packed(4),
        count: 35,
        seed: 7_000,
    },
    Group {
        name: "single",
        shape: Shape::Single,
        count: 35,
        seed: 8_000,
    },
    Group {
        name: "row",
        shape: Shape::Row,
        count: 35,
        seed: 9_000,
    },
    Group {
        name: "two",
        shape: Shape::Two,
        count: 2,
        seed: 10_000,
    },
    Group {
        name: "pair",
        shape: Shape::Pair,
        count: 1,
        seed: 11_000,
    },
    Group {
        name: "array",
        shape: Shape::Array,
        count: 2,
        seed: 12_000,
    },
    Group {
        name: "word",
        shape: Shape::Word,
        count: 1,
        seed: 13_000,
    },
    Group {
        name: "part",
        shape: Shape::Part,
        count: 2,
        seed: 14_000,
    },
];

/// Draws a handler and decides it in both ways; nothing where a text is refused.
fn try_one(alloc: Global, texts: &Texts) -> Result<Option<Decided>, AllocError> {
    match read(alloc, texts.kernel.as_bytes(), texts.spec.as_bytes()) {
        Some(inputs) => decide_both(alloc, &inputs),
        None => Ok(None),
    }
}

/// Tries all handlers of a group.
fn try_group(alloc: Global, group: &Group) -> Result<Tally, AllocError> {
    let mut tally = Tally::new();
    for place in 0..group.count {
        let texts = draw(alloc, group.shape, group.seed.wrapping_add(place))?;
        tally.count(try_one(alloc, &texts)?);
    }
    Ok(tally)
}

/// Shows the texts of a handler, and what it comes to.
fn show(rt: &HostRuntime, name: &str, place: u64) -> io::Result<()> {
    for group in GROUPS {
        if group.name == name {
            let texts = draw(rt.alloc(), group.shape, group.seed.wrapping_add(place))?;
            let kernel = texts.kernel.as_str();
            let spec = texts.spec.as_str();
            println!(rt; "{kernel}\n{spec}")?;
            let mut tally = Tally::new();
            tally.count(try_one(rt.alloc(), &texts)?);
            let line = tally.line(rt.alloc(), name)?;
            println!(rt; "{line}")?;
        }
    }
    Ok(())
}

/// Tries all groups, and shows a line for each and their sum.
fn try_all(rt: &HostRuntime) -> io::Result<()> {
    let mut sum = Tally::new();
    for group in GROUPS {
        let tally = try_group(rt.alloc(), group)?;
        let line = tally.line(rt.alloc(), group.name)?;
        println!(rt; "{line}")?;
        sum.add(&tally);
    }
    let line = sum.line(rt.alloc(), "all")?;
    println!(rt; "{line}")
}

fn main(rt: HostRuntime) -> io::Result<()> {
    let mut words = Vec::new(rt.alloc());
    for word in env::args(&rt)? {
        words.push(word)?;
    }
    match (words.get(1), words.get(2)) {
        (Some(name), Some(place)) => {
            let place = place.parse::<u64>().unwrap_or(0);
            show(&rt, name.as_str(), place)
        }
        _ => try_all(&rt),
    }
}
