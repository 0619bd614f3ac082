ghost use Rattle.std.specs.Prelude.{◌≡◌, ◌+◌, ◌*◌, false, MatchOption, MatchResult, ◌≢◌};
ghost use Rattle.stamps.specs.Stamps.{InStampRange, is_stamp, is_older, counter_of};
ghost use Rattle.stamps.specs.Numbers.{factor};
ghost use Rattle.stamps.specs.declared.refusal.Refusal.TheVariants.{OutOfRange};

use crate::below::Terminal;
use crate::limits::{COUNTER_LIMIT, FACTOR};
use crate::refusal::Refusal;

// A stamp as one number, counter × 8 + terminal: the higher stamp wins. 0 stands for none.
#[derive(Clone, Copy, PartialEq, Eq, PartialOrd, Ord)]
pub struct Stamp {
    pub number: u32,
}

// What a stamp is made of.
#[derive(Clone, Copy, PartialEq, Eq)]
pub struct StampParts {
    pub counter: u32,
    pub terminal: u32,
}

impl Stamp {
    // No stamp. Kept a number, not an Option: by the rules a stamp is one number, of which rows and answer lines
    // have 0 for none.
    pub const NONE: Stamp = Stamp { number: 0 };

    // The stamp of a counter and a terminal; refused 14 where either is out of range. Kept a function: a TryFrom of a
    // pair would say less of which number is which.
    pub fn make(counter: u32, terminal: u32) -> Result<Stamp, Refusal>
        ensures { MatchResult result
            (λ s. InStampRange counter terminal × (s.number ≡ counter * factor + terminal))
            (λ e. (e ≡ OutOfRange) × (InStampRange counter terminal → ⊥)) }
    {
        let terminal = Terminal::try_from(terminal)?;
        if !(1..=COUNTER_LIMIT).contains(&counter) {
            return Err(Refusal::OutOfRange);
        }
        Ok(Stamp {
            number: counter * FACTOR + terminal.number(),
        })
    }

    // The counter and the terminal of a stamp, none of 0; a number that is no stamp is refused 14. Kept a function: a
    // TryFrom would have one way to have no parts, and here are two.
    pub fn parts(self) -> Result<Option<StampParts>, Refusal>
        ensures { MatchResult result
            (λ o. MatchOption o (self.number ≡ 0)
            (λ p. InStampRange p.counter p.terminal × (self.number ≡ p.counter * factor + p.terminal)))
            (λ e. (e ≡ OutOfRange) × (is_stamp self.number ≡ false) × (self.number ≢ 0)) }
    {
        // Kept a test against none, as NONE says.
        if self == Stamp::NONE {
            return Ok(None);
        }
        if !self.is_stamp() {
            return Err(Refusal::OutOfRange);
        }
        Ok(Some(StampParts {
            counter: self.counter(),
            terminal: self.number % FACTOR,
        }))
    }

    // Whether the number is a stamp.
    pub fn is_stamp(self) -> bool
        ensures { result ≡ is_stamp self.number }
    {
        (1..=COUNTER_LIMIT).contains(&self.counter())
    }

    // The counter of a stamp; 0 for none.
    pub fn counter(self) -> u32
        ensures { result ≡ counter_of self.number }
    {
        self.number / FACTOR
    }

    // Whether the stamp of a row is older than a counter: none, or a stamp of a lower counter.
    pub fn is_older(self, counter: u32) -> bool
        ensures { result ≡ is_older counter self.number }
    {
        // Kept a test against none, as NONE says.
        self == Stamp::NONE || self.is_stamp() && self.counter() < counter
    }
}
