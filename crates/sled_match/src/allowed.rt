//! A table of which bytes a constructor allows.
ghost use Rattle.std.specs.Prelude.{◌≡◌};
ghost use Rattle.sled_match.specs.Pruned.{allowed_in};

use sqlite_items::Items;

/// For each constructor, each place and each key, whether it is allowed there; what has no entry is allowed.
#[derive(Drop)]
pub struct Allowed {
    pub rows: Items<Items<Items<bool>>>,
}

/// How many places, from the front of the bytes, an inner node may read.
pub const PLACES: u8 = 4;

/// How many keys a place has: the bytes, and the end.
pub const KEYS: u16 = 257;

impl Allowed {
    /// Whether a constructor allows a key at a place.
    pub fn permits(&self, constructor: u16, place: u8, key: u16) -> bool
        ensures { result ≡ allowed_in self.now.rows constructor place key }
    {
        match self.rows.get(constructor as usize) {
            None => true,
            Some(places) => match places.get(place as usize) {
                None => true,
                Some(keys) => match keys.get(key as usize) {
                    None => true,
                    Some(bit) => *bit,
                },
            },
        }
    }
}
