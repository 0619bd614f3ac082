ghost use Rattle.std.specs.Prelude.{◌≡◌, ℕ, ◌-◌, ◌≤◌, true, if◌then◌else◌, None, ◌==◌};
ghost use Rattle.causal.specs.Tables.{held_stamp};
ghost use Rattle.store.specs.Holding.{registered_at};
ghost use Rattle.store.specs.Registers.{is_placed, written_at};
ghost use Rattle.poll.specs.Numbers.{period_limit};

use crate::period::Period;
use causal::choose::stamp_of;
use stamps::stamp::Stamp;
use store::site_registers::SiteRegisters;
use store::spot::Spot;
use versions::version::Version;

// What was copied last from each site and key, and the ticks left to the next copying: 1 to the period.
#[derive(Clone, Copy)]
pub struct Snapshot {
    held: SiteRegisters,
    period: Period,
    countdown: u32,
    ghost least: { 1 ≤ countdown },
    ghost most: { countdown ≤ period },
    // true of every period; kept here since a clause sees the field as a mere number, and the law `good` needs it
    ghost period_most: { period ≤ period_limit },
}

impl Snapshot {
    // An empty snapshot; the countdown starts at the period.
    pub(crate) fn new(period: Period) -> Snapshot
        ensures empty { (s k : ℕ) → registered_at result.held s k ≡ None }
        ensures lasting { result.period ≡ period }
        ensures started { result.countdown ≡ period }
    {
        Snapshot {
            held: SiteRegisters::new(),
            period,
            countdown: period.ticks(),
        }
    }

    // Lowers the countdown by one. Answers whether it has run out, and then starts it again.
    pub(crate) fn count_down(&mut self) -> bool
        ensures out { result ≡ (self.old.countdown - 1 == 0) }
        ensures lowered { self.new.countdown ≡ (if result then self.old.period else self.old.countdown - 1) }
        ensures lasting { self.new.period ≡ self.old.period }
        ensures held { self.new.held ≡ self.old.held }
    {
        if self.countdown == 1 {
            self.countdown = self.period.ticks();
            return true;
        }
        self.countdown -= 1;
        false
    }

    // What was copied last from a spot.
    pub(crate) fn read(&self, spot: Spot) -> Option<Version>
        ensures { result ≡ registered_at self.now.held spot.site spot.key }
    {
        *self.held.at(spot)
    }

    // The stamp of what was copied last from a spot; 0 for none.
    pub(crate) fn stamp_at(&self, spot: Spot) -> Stamp
        ensures { result.number ≡ held_stamp (registered_at self.now.held spot.site spot.key) }
    {
        stamp_of(self.held.at(spot))
    }

    // Writes what was copied from a spot. Kept a requires, as the table's `write` says.
    pub(crate) fn write(&mut self, spot: Spot, found: &Option<Version>)
        requires placed { is_placed spot.key found.now ≡ true }
        ensures written { (s k : ℕ) → registered_at self.new.held s k
            ≡ written_at (registered_at self.old.held) spot.site spot.key found.now s k }
        ensures lasting { self.new.period ≡ self.old.period }
        ensures counted { self.new.countdown ≡ self.old.countdown }
    {
        self.held
            .write(spot.site.number(), spot.key.number(), found);
    }
}
