//! When the search restarts: after 100 conflicts times 1, 1, 2, 1, 1, 2, 4 and so on (Luby, Sinclair and Zuckerman 1993).

/// Conflicts in a run of length one.
const UNIT: u64 = 100;

/// The conflicts since the last restart, and the length of this run. The lengths come from pairs as Knuth gives them.
#[derive(Drop)]
pub struct Restarts {
    conflicts: u64,
    turn: u64,
    length: u64,
}

impl Restarts {
    /// Before the first conflict.
    pub fn new() -> Restarts {
        Restarts {
            conflicts: 0,
            turn: 1,
            length: 1,
        }
    }

    /// Counts a conflict, and answers whether the run ends with it.
    pub fn is_due(&mut self) -> bool {
        self.conflicts = self.conflicts.saturating_add(1);
        if self.conflicts < self.length.saturating_mul(UNIT) {
            return false;
        }
        self.conflicts = 0;
        self.next();
        true
    }

    /// Goes on to the next run.
    fn next(&mut self) {
        let low = self.turn & self.turn.wrapping_neg();
        if low == self.length {
            self.turn = self.turn.wrapping_add(1);
            self.length = 1;
        } else {
            self.length = self.length.saturating_mul(2);
        }
    }
}
