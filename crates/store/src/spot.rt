use stamps::below::{Key, Site};

// A site and a key, for which a store shows something.
#[derive(Clone, Copy)]
pub struct Spot {
    pub site: Site,
    pub key: Key,
}
