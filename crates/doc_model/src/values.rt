ghost use Rattle.std.specs.Prelude.{◌++◌, map as list_map};
ghost use Rattle.std.specs.Iterator.{YieldsFirstRef, item_count};

use crate::key::DocKey;
use crate::slot::Slot;
use std::collections::btree_map;

/// The values of a map, that of each key once. Those of a collection need not stand next to each other.
#[derive(Drop)]
pub struct Values<'a, V> {
    /// What stands in slots and wasn't given yet.
    pub(crate) slots: btree_map::Values<'a, Slot, (DocKey, V)>,
    /// What keys have that found their slot taken, and wasn't given yet.
    pub(crate) others: btree_map::Values<'a, DocKey, V>,
}

impl<'a, V> Iterator for Values<'a, V> {
    type Item = &'a V;

    ghost next_gives = { YieldsFirstRef (λ s. list_map (λ e. e.1) s.slots ++ s.others) };

    ghost remaining = { item_count (λ s. list_map (λ e. e.1) s.slots ++ s.others) };

    fn next(&mut self) -> Option<&'a V> {
        match self.slots.next() {
            Some(entry) => Some(&entry.1),
            None => self.others.next(),
        }
    }
}
