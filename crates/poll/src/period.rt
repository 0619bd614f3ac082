ghost use Rattle.std.specs.Prelude.{◌≡◌, MatchResult};
ghost use Rattle.stamps.specs.declared.refusal.Refusal.TheVariants.{OutOfRange};
ghost use Rattle.poll.specs.Numbers.{InPeriodRange};

use crate::limits::PERIOD_LIMIT;
use stamps::refusal::Refusal;
use std::marker::Model;

// A period: 1 to 8 ticks. No other can exist. Clauses see the number of ticks.
#[derive(Clone, Copy)]
pub struct Period {
    ticks: u32,
}

impl Model for Period {
    ghost use Rattle.std.specs.Prelude.{ℕ};
    ghost use Rattle.poll.specs.Numbers.{InPeriodRange};

    ghost Value = { ℕ };

    ghost view = { λ p. p.ticks };

    ghost invariant = { λ p. InPeriodRange p.ticks };

    ghost inverse = { λ ticks. record { ticks = ticks } };
}

impl Period {
    // The period of so many ticks; refused 14 outside 1 to 8. Kept `new`: a
    // TryFrom would be the same test under a name that says less of what is made.
    pub fn new(ticks: u32) -> Result<Period, Refusal>
        ensures { MatchResult result (λ p. InPeriodRange ticks × (p ≡ ticks)) (λ e. (e ≡ OutOfRange) × (InPeriodRange ticks → ⊥)) }
    {
        if !(1..=PERIOD_LIMIT).contains(&ticks) {
            return Err(Refusal::OutOfRange);
        }
        Ok(Period { ticks })
    }

    // How many ticks the period has.
    pub fn ticks(&self) -> u32
        ensures ticks { result ≡ self.now }
        ensures range { InPeriodRange self.now }
    {
        self.ticks
    }
}
