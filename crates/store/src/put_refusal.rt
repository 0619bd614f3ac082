ghost use Rattle.std.specs.Prelude.{◌≡◌};
ghost use Rattle.store.specs.Puts.{refusal_of, refusal_passed_up};
ghost use Rattle.store.specs.declared.put_refusal.PutRefusal.TheVariants.{Barring};

use stamps::refusal::{Bar, Refusal};
use thiserror::Error;

// Why a put was refused. Kept an enum of its own, not an Option of a bar: each case has a name. Its text has the number that answer lines print, and the depth of a bar.
#[derive(Clone, Copy, Debug, PartialEq, Eq, Error)]
pub enum PutRefusal {
    // 14: the site is out of range, or the record is no version.
    #[error("refused {}", self.refusal().number())]
    Unfit,
    // The store takes no put now: 32 or 33, with the depth.
    #[error("refused {}, depth {}", .0.refusal.number(), .0.depth)]
    Barring(Bar),
}

// A bar refuses a put.
impl From<Bar> for PutRefusal {
    ghost from_gives = { λ bar refusal. refusal ≡ Barring bar };

    fn from(bar: Bar) -> PutRefusal {
        PutRefusal::Barring(bar)
    }
}

impl PutRefusal {
    // The refusal, which has the number. Kept a method: a From would hide that the depth of a bar is left out.
    pub fn refusal(self) -> Refusal
        ensures { result ≡ refusal_of self }
    {
        match self {
            PutRefusal::Unfit => Refusal::OutOfRange,
            PutRefusal::Barring(bar) => bar.refusal,
        }
    }

    // The refusal as the layer above gives it: a bar is one deeper.
    pub fn passed_up(self) -> PutRefusal
        ensures { result ≡ refusal_passed_up self }
    {
        match self {
            PutRefusal::Unfit => PutRefusal::Unfit,
            PutRefusal::Barring(bar) => PutRefusal::Barring(bar.passed_up()),
        }
    }
}
