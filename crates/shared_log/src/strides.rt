ghost use Rattle.std.specs.Prelude.{◌≡◌, ℕ, ◌<◌, ◌≤◌, length, slice_index};
ghost use Rattle.stamps.specs.Numbers.{sites};
ghost use Rattle.shared_log.specs.Numbers.{stride_limit};

use crate::limits::STRIDE_LIMIT;
use stamps::refusal::Refusal;
use store::range::SITE_PLACES;

// A stride for each site: how many versions of the tail it reads with a tick, 1 to 8.
#[derive(Clone, Copy)]
pub struct Strides {
    pub(crate) strides: [u32; SITE_PLACES],
    ghost sized: { length strides ≡ sites },
    ghost least: { (site : ℕ) → site < sites → 1 ≤ slice_index strides site },
    ghost most: { (site : ℕ) → slice_index strides site ≤ stride_limit },
}

impl Strides {
    ghost use Rattle.std.specs.Prelude.{◌≡◌, MatchResult};
    ghost use Rattle.stamps.specs.declared.refusal.Refusal.TheVariants.{OutOfRange};
    ghost use Rattle.shared_log.specs.Holding.{AreStrides, stride_of};

    // The strides of the sites; refused 14 where one is not 1 to 8. Kept apart from line times and periods: each check
    // is one chain or test, and one type over their sizes and limits would be longer; and kept `new`: a TryFrom of an
    // array of numbers would say less of what they are.
    pub fn new(strides: [u32; SITE_PLACES]) -> Result<Strides, Refusal>
        ensures { MatchResult result (λ s. (s.strides ≡ strides) × AreStrides strides) (λ e. (e ≡ OutOfRange) × (AreStrides strides → ⊥)) }
    {
        let in_range = strides
            .iter()
            .all(|stride| (1..=STRIDE_LIMIT).contains(stride));
        if !in_range {
            return Err(Refusal::OutOfRange);
        }
        Ok(Strides { strides })
    }

    // The stride of a site; 0 where there is no such site. Kept for any number: callers had it so.
    pub fn at(&self, site: u32) -> u32
        ensures { result ≡ stride_of self.now site }
    {
        self.strides.get(site as usize).copied().unwrap_or(0)
    }
}
