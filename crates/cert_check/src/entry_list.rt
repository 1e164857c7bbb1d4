// The entries of a certificate, one by one.
ghost use Rattle.std.specs.Prelude.{◌≡◌, ◌<◌, List, All, length, slice_get, Some};
ghost use Rattle.atam.specs.Placements.{HasDistinctSites};
ghost use Rattle.cert_check.specs.declared.entry.Entry.{Entry as EntryValue};
ghost use Rattle.cert_check.specs.Certificates.{places_of};

use crate::{Certificate, Entry};

/// A list of entries, each of which is kept or made when it is asked for.
pub trait EntryList {
    ghost entries: { Self → List EntryValue };

    /// The number of entries.
    fn len(&self) -> usize
        ensures { result ≡ length (entries self.now) };

    /// The entry at an index.
    fn get(&self, i: usize) -> Entry
        requires { i < length (entries self.now) }
        ensures { slice_get (entries self.now) i ≡ Some result };

    /// Does nothing: its clauses are the facts that no two entries have one site, and that they
    /// state no sides but the four, for the proof of a caller.
    fn recall_entries(&self)
        ensures distinct { HasDistinctSites (places_of (entries self.now)) }
        ensures sides { All (λ e. e.sides < 16) (entries self.now) };
}

impl EntryList for Certificate {
    ghost entries = { λ c. c };

    #[inline(always)]
    fn len(&self) -> usize {
        Certificate::len(self)
    }

    #[inline(always)]
    fn get(&self, i: usize) -> Entry {
        Certificate::get(self, i)
    }

    #[inline(always)]
    fn recall_entries(&self) {
        Certificate::recall_entries(self)
    }
}
