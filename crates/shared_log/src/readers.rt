ghost use Rattle.std.specs.Prelude.{◌≡◌, ◌≤◌, length};
ghost use Rattle.stamps.specs.Numbers.{sites};
ghost use Rattle.shared_log.specs.Numbers.{tail_limit};

use crate::strides::Strides;
use stamps::below::Site;
use store::range::SITE_PLACES;

// How many versions of the tail a site has read, and how many more it reads with a tick.
#[derive(Clone, Copy)]
pub(crate) struct Reader {
    read: usize,
    stride: u32,
    ghost few: { read ≤ tail_limit },
}

// A reader for each site.
#[derive(Clone, Copy)]
pub(crate) struct Readers {
    readers: [Reader; SITE_PLACES],
    ghost sized: { length readers ≡ sites },
}

impl Readers {
    ghost use Rattle.std.specs.Prelude.{◌≡◌, ℕ, ◌+◌, ◌-◌, ◌<◌, ◌≤◌, min};
    ghost use Rattle.stamps.specs.Numbers.{sites};
    ghost use Rattle.shared_log.specs.Holding.{stride_of, position_of, stride_at};
    ghost use Rattle.shared_log.specs.Log.{lowest_at};
    ghost use Rattle.shared_log.specs.Numbers.{tail_limit};

    // Every site before the first version.
    pub(crate) fn new(strides: &Strides) -> Readers
        ensures positions { (site : ℕ) → position_of result site ≡ 0 }
        ensures strides { (site : ℕ) → stride_at result site ≡ stride_of strides.now site }
    {
        Readers {
            readers: strides.strides.map(|stride| Reader { read: 0, stride }),
        }
    }

    // How many versions a site has read.
    pub(crate) fn at(&self, site: Site) -> usize
        ensures { result ≡ position_of self.now site }
    {
        self.readers[site.place()].read
    }

    // Moves each position on by its site's stride, not past the end.
    pub(crate) fn move_on(&mut self, end: usize)
        requires { end ≤ tail_limit }
        ensures positions { (site : ℕ) → position_of self.new site ≡ min (position_of self.old site + stride_at self.old site) end }
        ensures strides { (site : ℕ) → stride_at self.new site ≡ stride_at self.old site }
    {
        for reader in self.readers.iter_mut() {
            reader.read = (reader.read + reader.stride as usize).min(end);
        }
    }

    // How many versions every site has read: the lowest position.
    pub(crate) fn lowest(&self) -> usize
        ensures { result ≡ lowest_at (position_of self.now) }
    {
        self.readers
            .iter()
            .map(|reader| reader.read)
            .min()
            .unwrap_or(0)
    }

    // Lowers each position by a count that none is below.
    pub(crate) fn lower(&mut self, count: usize)
        requires { (site : ℕ) → site < sites → count ≤ position_of self.old site }
        ensures positions { (site : ℕ) → position_of self.new site ≡ position_of self.old site - count }
        ensures strides { (site : ℕ) → stride_at self.new site ≡ stride_at self.old site }
    {
        for reader in self.readers.iter_mut() {
            reader.read -= count;
        }
    }
}
