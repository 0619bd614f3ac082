ghost use Rattle.std.specs.Prelude.{◌≡◌, ◌<◌};
ghost use Rattle.versions.specs.Joins.{JoinLaws, joined, OrderAndRepeatsMakeNoDifference, JoinsOfStampsAndRows};
ghost use Rattle.versions.specs.Rows.{stamp, ProperStamp, ProperRow, zeros, joined_stamps, joined_rows};
ghost use Rattle.versions.specs.Rowing.{stamp_laws, row_laws};

use crate::row::Row;
use stamps::stamp::Stamp;

// What joins lawfully: two values have a join, and a neutral element alters nothing.
pub trait Join: Copy {
    // the values that code can make, of which the laws speak
    ghost proper: { Self → Type 0 };

    ghost neutral: { Self };

    ghost op: { Self → Self → Self };

    // The neutral element.
    fn neutral() -> Self
        ensures { result ≡ neutral };

    // The join of two values.
    fn join(&self, other: &Self) -> Self
        ensures { result ≡ op self.now other.now };

    ghost lawful: { JoinLaws proper neutral op };
}

// Stamps: the higher one.
impl Join for Stamp {
    ghost proper = { ProperStamp };

    ghost neutral = { stamp 0 };

    ghost op = { joined_stamps };

    ghost lawful = { stamp_laws };

    fn neutral() -> Stamp {
        Stamp::NONE
    }

    fn join(&self, other: &Stamp) -> Stamp {
        (*self).max(*other)
    }
}

// Rows: the higher stamp at each key.
impl Join for Row {
    ghost proper = { ProperRow };

    ghost neutral = { zeros };

    ghost op = { joined_rows };

    ghost lawful = { row_laws };

    fn neutral() -> Row {
        Row::zeros()
    }

    fn join(&self, other: &Row) -> Row {
        Row {
            stamps: std::array::from_fn(|k| self.stamps[k].join(&other.stamps[k])),
        }
    }
}

// The join of a list, taken first to last; the neutral element for the empty list.
pub fn join_all<T: Join>(values: &[T]) -> T
    ensures { result ≡ joined T.neutral T.op values.now }
{
    values
        .iter()
        .fold(T::neutral(), |sum, value| sum.join(value))
}

// Theorem: order and repeats make no difference to what a list joins to. It has no code.
pub fn order_and_repeats<T: Join>()
    ensures { OrderAndRepeatsMakeNoDifference {X = T} T.proper T.neutral T.op }
{}

// Theorem: so it is for stamps and rows; no stamps join to 0, and no rows to the row of zeros. It has no code.
pub fn joins_of_stamps_and_rows()
    ensures { JoinsOfStampsAndRows }
{}
