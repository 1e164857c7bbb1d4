// A certificate.
ghost use Rattle.std.specs.Prelude.{◌≡◌, ◌<◌, ◌↔◌, [], IsTrue, All, length, slice_get, Some};
ghost use Rattle.atam.specs.Placements.{HasDistinctSites};
ghost use Rattle.cert_check.specs.Certificates.{places_of};

use crate::Entry;
use std::marker::Model;

/// The entries of an assembly's places: what holds each of them, and in which order they may come.
#[derive(Drop)]
pub struct Certificate {
    entries: Vec<Entry>,
}

impl Model for Certificate {
    ghost use Rattle.std.specs.Prelude.{List};
    ghost use Rattle.cert_check.specs.declared.entry.Entry.{Entry};
    ghost use Rattle.cert_check.specs.Certificates.{AreEntries};

    ghost Value = { List Entry };

    ghost view = { λ c. c.entries.items };

    ghost invariant = { λ c. AreEntries c.entries.items };
}

impl Certificate {
    /// The certificate of these entries.
    pub fn of(entries: Vec<Entry>) -> Certificate
        requires distinct { HasDistinctSites (places_of entries.items) }
        requires sides { All (λ e. e.sides < 16) entries.items }
        ensures { result ≡ entries.items }
    {
        Certificate { entries }
    }

    /// The number of entries.
    pub fn len(&self) -> usize
        ensures { result ≡ length self.now }
    {
        self.entries.len()
    }

    pub fn is_empty(&self) -> bool
        ensures { IsTrue result ↔ (self.now ≡ []) }
    {
        self.entries.len() == 0
    }

    #[inline(always)]
    pub fn get(&self, i: usize) -> Entry
        requires { i < length self.now }
        ensures { slice_get self.now i ≡ Some result }
    {
        self.entries[i]
    }

    /// Does nothing: its clauses are the facts that no two entries have one site, and that they
    /// state no sides but the four, for the proof of a caller.
    #[inline(always)]
    pub fn recall_entries(&self)
        ensures distinct { HasDistinctSites (places_of self.now) }
        ensures sides { All (λ e. e.sides < 16) self.now }
    {
        let _ = &self.entries;
    }
}
