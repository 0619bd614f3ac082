ghost use Rattle.std.specs.Prelude.{◌≡◌, ◌<◌, length};
ghost use Rattle.replicas.specs.Lines.{pair_place, TimesFit, PairsInOrder};
ghost use Rattle.replicas.specs.Numbers.{pairs};

use crate::limits::{LINE_LIMIT, PAIRS};
use stamps::below::Site;
use stamps::refusal::Refusal;
use std::cmp::Ordering;

// How many ticks a version takes between two sites, for the pairs 01, 02, 03, 12, 13, 23; each 0 to 16.
#[derive(Clone, Copy)]
pub struct LineTimes {
    times: [u32; PAIRS],
    ghost sized: { length times ≡ pairs },
    ghost limited: { TimesFit times },
}

impl LineTimes {
    ghost use Rattle.std.specs.Prelude.{◌≡◌, ◌<◌, MatchResult};
    ghost use Rattle.stamps.specs.Numbers.{sites};
    ghost use Rattle.stamps.specs.declared.refusal.Refusal.TheVariants.{OutOfRange};
    ghost use Rattle.replicas.specs.Lines.{line_time, TimesFit};
    ghost use Rattle.replicas.specs.Times.{times_of};

    // The line times of the six pairs; refused 14 where one is above 16. Kept apart from the log's strides and poll's
    // period: each check is one chain or test, and one type over their sizes and limits would be longer; and kept `new`:
    // a TryFrom of an array of numbers would say less of what they are.
    pub fn new(times: [u32; PAIRS]) -> Result<LineTimes, Refusal>
        ensures { MatchResult result (λ l. TimesFit times × (times_of l ≡ times)) (λ e. (e ≡ OutOfRange) × (TimesFit times → ⊥)) }
    {
        if times.iter().any(|time| *time > LINE_LIMIT) {
            return Err(Refusal::OutOfRange);
        }
        Ok(LineTimes { times })
    }

    // The line time between two sites; 0 from a site to itself.
    pub(crate) fn between(&self, a: Site, b: Site) -> u32
        ensures time { result ≡ line_time (times_of self.now) a b }
        ensures sites { (a < sites) × (b < sites) }
    {
        // Kept by numbers: it is `number` that tells that both sites are in range.
        match a.number().cmp(&b.number()) {
            Ordering::Less => self.times[pair_place(a, b)],
            Ordering::Greater => self.times[pair_place(b, a)],
            Ordering::Equal => 0,
        }
    }
}

// The place of a pair of sites, lower site first.
fn pair_place(low: Site, high: Site) -> usize
    requires in_order { low < high }
    ensures place { result ≡ pair_place low high }
    ensures within { result < pairs }
{
    match low.number() {
        0 => high.place() - 1,
        1 => high.place() + 1,
        _ => 5,
    }
}

// Theorem: the six pairs have the places 0 to 5, in the order 01, 02, 03, 12, 13, 23. It has no code.
pub fn pairs_in_order()
    ensures { PairsInOrder }
{}
