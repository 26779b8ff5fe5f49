//! Pigeons in holes: clause files that ask for a hole for each pigeon, and for no hole with two.

use std::alloc::{AllocError, Global};

/// So many pigeons and so many holes.
#[derive(Clone, Copy)]
struct Loft {
    pigeons: u32,
    holes: u32,
}

impl Loft {
    /// The variable of a pigeon in a hole, where both are counted from 0.
    fn place(self, pigeon: u32, hole: u32) -> u32 {
        let before = pigeon.saturating_mul(self.holes);
        before.saturating_add(hole).saturating_add(1)
    }

    /// Adds the clause by which a pigeon has a hole.
    fn add_housed(self, text: &mut String, pigeon: u32) -> Result<(), AllocError> {
        for hole in 0..self.holes {
            let place = self.place(pigeon, hole);
            write!(text, "{place} ")?;
        }
        text.push_str("0\n")
    }

    /// Adds the clauses by which a pigeon shares a hole with none behind it.
    fn add_apart(self, text: &mut String, pigeon: u32, hole: u32) -> Result<(), AllocError> {
        let own = self.place(pigeon, hole);
        for other in pigeon.saturating_add(1)..self.pigeons {
            let other = self.place(other, hole);
            write!(text, "-{own} -{other} 0\n")?;
        }
        Ok(())
    }

    /// Adds the clauses by which no two pigeons share a hole.
    fn add_alone(self, text: &mut String, hole: u32) -> Result<(), AllocError> {
        for pigeon in 0..self.pigeons {
            self.add_apart(text, pigeon, hole)?;
        }
        Ok(())
    }

    /// Adds the clauses of all pigeons, and then those of all holes.
    fn add_clauses(self, text: &mut String) -> Result<(), AllocError> {
        for pigeon in 0..self.pigeons {
            self.add_housed(text, pigeon)?;
        }
        for hole in 0..self.holes {
            self.add_alone(text, hole)?;
        }
        Ok(())
    }
}

/// The clause file of so many pigeons in so many holes, and nothing where these are no numbers of at most one digit.
pub(crate) fn pigeons_text(alloc: Global, sizes: &str) -> Result<Vec<u8>, AllocError> {
    let loft = match sizes.as_bytes() {
        [pigeons @ b'0'..=b'9', b' ', holes @ b'0'..=b'9'] => Loft {
            pigeons: u32::from(*pigeons - b'0'),
            holes: u32::from(*holes - b'0'),
        },
        _ => return Ok(Vec::new(alloc)),
    };
    let mut clauses = String::new(alloc);
    loft.add_clauses(&mut clauses)?;
    let vars = loft.pigeons.saturating_mul(loft.holes);
    let count = clauses.as_str().lines().count();
    let text = format!(in alloc; "p cnf {vars} {count}\n{clauses}")?;
    Vec::from_slice(alloc, text.as_bytes())
}
