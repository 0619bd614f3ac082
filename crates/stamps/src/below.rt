ghost use Rattle.std.specs.Prelude.{◌≡◌, ℕ, ◌+◌, ◌-◌, ◌<◌, ◌≤◌, MatchOption, MatchResult};
ghost use Rattle.std.specs.Iterator.{at_most};
ghost use Rattle.stamps.specs.declared.refusal.Refusal.TheVariants.{OutOfRange};

use crate::limits::{KEYS, SITES, TERMINALS};
use crate::refusal::Refusal;
use std::marker::Model;

// A number below END. Clauses see the number.
#[derive(Clone, Copy, PartialEq, Eq, PartialOrd, Ord)]
pub struct Below<const END: u32> {
    value: u32,
}

// The number of a key.
pub type Key = Below<KEYS>;

// The number of a site.
pub type Site = Below<SITES>;

// The number of a terminal.
pub type Terminal = Below<TERMINALS>;

impl<const END: u32> Model for Below<END> {
    ghost Value = { ℕ };

    ghost view = { λ b. b.value };

    ghost invariant = { λ b. b.value < END };

    ghost inverse = { λ n. record { value = n } };
}

// A number that is not below END is refused 14.
impl<const END: u32> TryFrom<u32> for Below<END> {
    type Error = Refusal;

    ghost try_from_gives = { λ number answer. MatchResult answer
        (λ below. (number < END) × (below ≡ number))
        (λ e. (e ≡ OutOfRange) × (END ≤ number)) };

    fn try_from(number: u32) -> Result<Below<END>, Refusal> {
        if number >= END {
            return Err(Refusal::OutOfRange);
        }
        Ok(Below { value: number })
    }
}

impl<const END: u32> Below<END> {
    // All numbers below END, upward.
    pub fn all() -> Upward<END>
        ensures { result.next ≡ 0 }
    {
        Upward { next: 0 }
    }

    // The number itself.
    pub fn number(&self) -> u32
        ensures number { result ≡ self.now }
        ensures below { self.now < END }
    {
        self.value
    }

    // The number as a place in a table.
    pub fn place(&self) -> usize
        ensures place { result ≡ self.now }
        ensures below { self.now < END }
    {
        self.number() as usize
    }
}

// Gives the numbers below END, from the next one upward.
#[derive(Clone, Copy)]
pub struct Upward<const END: u32> {
    pub(crate) next: u32,
}

impl<const END: u32> Iterator for Upward<END> {
    type Item = Below<END>;

    ghost next_gives = { λ s found t. MatchOption found
        ((END ≤ s.next) × (t.next ≡ s.next))
        (λ below. (s.next < END) × (below ≡ s.next) × (t.next ≡ s.next + 1)) };

    ghost remaining = { λ s. at_most (END - s.next) };

    fn next(&mut self) -> Option<Below<END>> {
        let number = Below::try_from(self.next).ok()?;
        self.next += 1;
        Some(number)
    }
}
