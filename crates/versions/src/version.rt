ghost use Rattle.std.specs.Prelude.{◌≡◌};
ghost use Rattle.versions.specs.Versions.{is_version, reach};

use crate::row::Row;
use stamps::below::Key;
use stamps::stamp::Stamp;
use stamps::value::Value;

// What a post left at a key: its value, its stamp, and the row of what it rests on. A plain record: tables
// and stores hold them as they come, and `is_version` tells which are versions.
#[derive(Clone, Copy)]
pub struct Version {
    pub key: u32,
    pub value: Value,
    pub stamp: Stamp,
    pub row: Row,
}

impl Version {
    // Whether the record is a version: key, value and stamp in range, and each stamp of the row none or a
    // stamp of a lower counter than its own.
    #[tactic(auto, unfolding(crate::specs::Versions::is_version))]
    pub fn is_version(&self) -> bool
        ensures { result ≡ is_version self.now }
    {
        Key::try_from(self.key).is_ok()
            && self.value.in_range()
            && self.stamp.is_stamp()
            && self.row.is_older(self.stamp.counter())
    }

    // The row with the version's own stamp set in at its own key.
    pub fn reach(&self) -> Row
        ensures { result ≡ reach self.now }
    {
        let mut row = self.row;
        if let Ok(key) = Key::try_from(self.key) {
            row.stamps[key.place()] = self.stamp;
        }
        row
    }
}
