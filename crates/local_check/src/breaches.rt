// Where a sequence first breaks a condition on its places.
ghost use Rattle.std.specs.Prelude.{◌≡◌, ◌<◌, ◌≤◌, ◌+◌, ℕ, length, take, slice_get, Some, option_map};
ghost use Rattle.std.specs.Option.{option_or};
ghost use Rattle.atam.specs.declared.place.Place.{Place};
ghost use Rattle.atam.specs.Assembly.{pull};
ghost use Rattle.local_check.specs.Inner.Ranges.{FindsInexactIn};

use assembly::Sequence;
use tile_system::{Site, System, TypeId};

// The first place that isn't held by exactly the temperature, with what holds it, and the first
// with a rival, with its first rival.
#[derive(Clone, Copy)]
pub(crate) struct Breaches {
    pub(crate) inexact: Option<(Site, u32)>,
    pub(crate) rival: Option<(Site, TypeId)>,
}

impl Breaches {
    // None is broken.
    pub(crate) const NONE: Breaches = Breaches {
        inexact: None,
        rival: None,
    };

    // One place more, with the sum that holds it and its first rival.
    #[inline(always)]
    pub(crate) fn see(
        &mut self,
        sys: &System,
        seq: &Sequence,
        index: usize,
        sum: u32,
        rival: Option<TypeId>,
    )
        requires within { index < length seq.now }
        ensures inexact { (start : ℕ) (place : Place) → start ≤ index
            → FindsInexactIn sys.now seq.now start index self.old.inexact
            → length sys.now.seeds ≤ index → slice_get seq.now index ≡ Some place
            → pull sys.now (take index seq.now) place.site place.tile ≡ sum
            → FindsInexactIn sys.now seq.now start (index + 1) self.new.inexact }
        ensures rival { (place : Place) → slice_get seq.now index ≡ Some place → self.new.rival ≡
            option_or self.old.rival (option_map (λ t. (place.site, t)) rival) }
    {
        if sum != sys.tau() && self.inexact.is_none() || rival.is_some() && self.rival.is_none() {
            self.note(sys, seq, index, sum, rival);
        }
    }

    // What was found in one range, or else in the range behind it.
    pub(crate) fn or(self, behind: Breaches) -> Breaches
        ensures inexact { result.inexact ≡ option_or self.inexact behind.inexact }
        ensures rival { result.rival ≡ option_or self.rival behind.rival }
    {
        Breaches {
            inexact: self.inexact.or(behind.inexact),
            rival: self.rival.or(behind.rival),
        }
    }

    // The same, out of the way of the many places of which nothing new is to be noted.
    #[inline(never)]
    fn note(&mut self, sys: &System, seq: &Sequence, index: usize, sum: u32, rival: Option<TypeId>)
        requires within { index < length seq.now }
        ensures inexact { (start : ℕ) (place : Place) → start ≤ index
            → FindsInexactIn sys.now seq.now start index self.old.inexact
            → length sys.now.seeds ≤ index → slice_get seq.now index ≡ Some place
            → pull sys.now (take index seq.now) place.site place.tile ≡ sum
            → FindsInexactIn sys.now seq.now start (index + 1) self.new.inexact }
        ensures rival { (place : Place) → slice_get seq.now index ≡ Some place → self.new.rival ≡
            option_or self.old.rival (option_map (λ t. (place.site, t)) rival) }
    {
        let site = seq.get(index).site;
        if self.inexact.is_none() && sum != sys.tau() {
            self.inexact = Some((site, sum));
        }
        self.rival = self.rival.or(rival.map(|tile| (site, tile)));
    }
}
