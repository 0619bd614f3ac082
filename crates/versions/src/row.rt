ghost use Rattle.std.specs.Prelude.{◌≡◌, ℕ, ◌+◌, ◌<◌, ◌≤◌, ◌↔◌, IsTrue, Decides};
ghost use Rattle.stamps.specs.Numbers.{keys};
ghost use Rattle.versions.specs.Rows.{Covers, stamp_at, zeros};
ghost use Rattle.versions.specs.Versions.{row_older};

use stamps::limits::PLACES;
use stamps::stamp::Stamp;

// Rows are compared by parts of so many places.
const PART: usize = 8;

// One stamp for each key; a stamp of 0 stands for none.
#[derive(Clone, Copy)]
pub struct Row {
    pub stamps: [Stamp; PLACES],
}

impl Row {
    // The row of zeros.
    #[tactic(auto, unfolding(crate::specs::Rows::row_of))]
    pub fn zeros() -> Row
        ensures { result ≡ zeros }
    {
        Row {
            stamps: [Stamp::NONE; PLACES],
        }
    }

    // Whether this row's stamp is at least the other's at every key. Kept by parts, and each part without an early exit: an
    // `all` over the stamps is one test and branch after the other, and takes twice the time where the row is covered.
    pub fn covers(&self, other: &Row) -> bool
        ensures { IsTrue result ↔ Covers self.now other.now }
    {
        for part in 0..PLACES / PART {
            if !self.covers_from(other, part * PART) {
                return false;
            }
        }
        true
    }

    // Whether this row's stamps are at least the other's at the keys of a part, from its first on. Kept a requires: a part
    // is one of a row's own.
    fn covers_from(&self, other: &Row, first: usize) -> bool
        requires { first + 8 ≤ keys }
        ensures { Decides result ((k : ℕ) → first ≤ k → k < first + 8 → stamp_at other.now k ≤ stamp_at self.now k) }
    {
        let mut covered = true;
        for k in first..first + PART {
            covered &= other.stamps[k] <= self.stamps[k];
        }
        covered
    }

    // Whether each stamp of the row is older than a counter.
    pub fn is_older(&self, counter: u32) -> bool
        ensures { result ≡ row_older counter self.now }
    {
        self.stamps.iter().all(|stamp| stamp.is_older(counter))
    }
}
