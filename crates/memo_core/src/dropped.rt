//! Entries that a fill pushed out of the memo, kept until the lock is free.

ghost use Rattle.std.specs.Prelude.{◌≡◌, ◌<◌, length, slice_get, option_map, Some};
ghost use Rattle.std.specs.Arc.{arc_value};

use crate::slots::{GoneSlots, Slot};
use std::marker::Model;
use std::sync::Arc;

/// Entries that fills dropped. Their keys and values are freed with it.
#[derive(Drop)]
pub struct DroppedEntries<K, V> {
    slots: GoneSlots<K, V>,
}

impl<K, V> Model for DroppedEntries<K, V> {
    ghost use Rattle.std.specs.Prelude.{List};
    ghost use Rattle.memo_core.specs.Memo.{Entry};

    ghost Value = { List (Entry K V) };

    ghost use Rattle.memo_core.specs.Fields.{entries_of};

    ghost view = { λ d. entries_of d.slots.items };
}

impl<K, V> DroppedEntries<K, V> {
    ghost use Rattle.memo_core.specs.Fields.{entries_of};

    /// What is gone, to be freed.
    pub(crate) fn new(slots: GoneSlots<K, V>) -> DroppedEntries<K, V>
        ensures { result ≡ entries_of slots.items }
    {
        DroppedEntries { slots }
    }

    /// How many there are.
    pub fn len(&self) -> usize
        ensures { result ≡ length self.now }
    {
        self.slots.len()
    }

    /// The key of one of them.
    pub fn key(&self, place: usize) -> &Arc<K>
        requires { place < length self.now }
        ensures { option_map (λ e. e.header.key) (slice_get self.now place) ≡
            Some (arc_value result.now) }
    {
        &self.slots[place].1.key
    }
}
