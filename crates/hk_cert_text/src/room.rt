//! How many bytes the proofs of a certificate take, so that the buffer has the room before the first byte.

use hk_inst::Instance;
use hk_lrat::LratRow;
use hk_proof::Proof;
use hk_verdict::Verdict;
use itoa::Buffer;

/// The most bytes of a line's words, beside names and numbers.
const WORDS: usize = 32;

/// How many digits a number has.
fn digits(number: u64) -> usize {
    let mut buffer = Buffer::new();
    buffer.format(number).len()
}

/// The bytes of numbers, each with a space.
fn numbers(numbers: &[u64]) -> usize {
    let mut room: usize = 0;
    for number in numbers {
        room = room.saturating_add(digits(*number)).saturating_add(1);
    }
    room
}

/// The bytes of literals, each with a sign and a space.
fn literals(literals: &[hk_cnf::Lit]) -> usize {
    let mut room: usize = 0;
    for literal in literals {
        room = room
            .saturating_add(digits(literal.place()))
            .saturating_add(3);
    }
    room
}

/// The bytes of a row.
fn row(row: &LratRow) -> usize {
    match row {
        LratRow::Add { id, clause, hints } => digits(*id)
            .saturating_add(literals(clause.as_slice()))
            .saturating_add(numbers(hints.as_slice()))
            .saturating_add(6),
        LratRow::Delete { ids } => numbers(ids.as_slice()).saturating_add(6),
    }
}

/// The bytes of rows.
fn rows(rows: &[LratRow]) -> usize {
    let mut room: usize = 0;
    for each in rows {
        room = room.saturating_add(row(each));
    }
    room
}

/// The bytes of an instance.
fn instance(instance: &Instance) -> usize {
    match instance {
        Instance::Pair { a, b } => digits(*a).saturating_add(digits(*b)).saturating_add(7),
        Instance::Tuple {
            quantifier,
            indices,
        } => digits(*quantifier)
            .saturating_add(numbers(indices.as_slice()))
            .saturating_add(8),
    }
}

/// The bytes of instances.
fn instances(instances: &[Instance]) -> usize {
    let mut room: usize = 0;
    for each in instances {
        room = room.saturating_add(instance(each));
    }
    room
}

/// The bytes of a proof, with the line of its obligation but for the name.
fn proof(proof: &Proof) -> usize {
    match proof {
        Proof::Refuted {
            instances: added,
            log,
        } => instances(added.as_slice())
            .saturating_add(rows(log.as_slice()))
            .saturating_add(2 * WORDS),
        Proof::AllCases => WORDS,
    }
}

/// The bytes of proofs.
fn proofs(proofs: &[Proof]) -> usize {
    let mut room: usize = 0;
    for each in proofs {
        room = room.saturating_add(proof(each));
    }
    room
}

/// The bytes of a handler's lines, but for names and state blocks.
fn entry(verdict: &Verdict) -> usize {
    match verdict {
        Verdict::Accepted { proofs: shown } => proofs(shown.as_slice()).saturating_add(WORDS),
        _ => WORDS,
    }
}

/// The bytes of a certificate, but for names and state blocks, for which the buffer grows where that does not suffice.
pub fn room_of(verdicts: &[Verdict]) -> usize {
    let mut room = WORDS;
    for each in verdicts {
        room = room.saturating_add(entry(each));
    }
    room
}
