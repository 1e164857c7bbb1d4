// A certificate whose entries are made when they are asked for.
ghost use Rattle.std.specs.Prelude.{◌≡◌, ◌<◌, ◌≤◌, ◌^◌, All, length};
ghost use Rattle.atam.specs.Placements.{HasDistinctSites};
ghost use Rattle.cert_check.specs.Certificates.{entries_in_order};

use crate::{Entry, EntryList};
use assembly::Sequence;
use std::marker::Model;

/// The entries of places in an order: each with the sides that are kept of it, and with its index as
/// its rank. It takes nine bytes a place.
#[derive(Drop)]
pub struct OrderedCertificate {
    order: Sequence,
    sides: Vec<u8>,
}

impl Model for OrderedCertificate {
    ghost use Rattle.std.specs.Prelude.{List};
    ghost use Rattle.cert_check.specs.declared.entry.Entry.{Entry};
    ghost use Rattle.cert_check.specs.Certificates.{entries_in_order};
    ghost use Rattle.cert_check.specs.Inner.Ordered.{AreInOrder};

    ghost Value = { List Entry };

    ghost view = { λ c. entries_in_order c.order c.sides.items };

    ghost invariant = { λ c. AreInOrder c.order c.sides.items };
}

impl OrderedCertificate {
    /// The certificate of these places, each with the sides at its index.
    pub(crate) fn of(order: Sequence, sides: Vec<u8>) -> OrderedCertificate
        requires few { length order ≤ 2 ^ 32 }
        requires distinct { HasDistinctSites order }
        requires count { length sides.items ≡ length order }
        requires small { All (λ s. s < 16) sides.items }
        ensures { result ≡ entries_in_order order sides.items }
    {
        OrderedCertificate { order, sides }
    }
}

impl EntryList for OrderedCertificate {
    ghost entries = { λ c. c };

    #[inline(always)]
    fn len(&self) -> usize {
        self.order.len()
    }

    #[inline(always)]
    fn get(&self, i: usize) -> Entry {
        let place = self.order.get(i);
        let sides = self.sides[i];
        let rank = i as u32;
        Entry { place, sides, rank }
    }

    fn recall_entries(&self) {
        let _ = &self.order;
    }
}
