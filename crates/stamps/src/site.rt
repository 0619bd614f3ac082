ghost use Rattle.std.specs.Prelude.{◌≡◌, ◌<◌, ◌≤◌, MatchResult};
ghost use Rattle.stamps.specs.Numbers.{terminals, site_of};
ghost use Rattle.stamps.specs.declared.refusal.Refusal.TheVariants.{OutOfRange};

use crate::below::Terminal;
use crate::limits::SITES;
use crate::refusal::Refusal;

// The site at which a terminal stands, as the number by which a store is asked; a terminal out of range is refused 14.
pub fn site_of(terminal: u32) -> Result<u32, Refusal>
    ensures { MatchResult result
        (λ site. (terminal < terminals) × (site ≡ site_of terminal))
        (λ e. (e ≡ OutOfRange) × (terminals ≤ terminal)) }
{
    Ok(Terminal::try_from(terminal)?.number() % SITES)
}
