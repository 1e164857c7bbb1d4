// A seat that looks at listed sites, and claims those at which a type attaches.
ghost use Rattle.std.specs.Prelude.{◌≡◌};
ghost use Rattle.frontier_seat.specs.Inner.Insides.{IsInner};
ghost use Rattle.frontier_seat.specs.Inner.Looks.{CanLook, HasTaken, LooksAt, TakesSteps, TellsLook};

use crate::inside::{beside_inner, is_inner};
use crate::picking::{Pick, Picker};
use crate::work_list::{Spot, WorkList};
use crate::{Chooser, Growing};
use site_table::SiteTable;
use std::sync::ledger::Ledger;
use tile_io::Steps;
use tile_system::{BoxArea, Site, System};

// What a grower is lent: the system, its table, and its box, which is held by value, since what
// stands behind a reference is read again after each store.
#[derive(Clone, Copy)]
pub(crate) struct Setting<'s, 't> {
    pub(crate) sys: &'s System,
    pub(crate) table: &'t SiteTable,
    pub(crate) area: BoxArea,
}

// A seat with what it has seen, what it picks types by, and the sites that it is to look at.
#[derive(Drop)]
pub(crate) struct Grower<'i> {
    pub(crate) growing: Growing,
    pub(crate) picker: Picker<'i>,
    pub(crate) work: WorkList,
}

// What a look at a site was: whether a type attached, whether one that was picked among those
// stands there then, and whether it is clear that whichever attached comes clean, held by exactly
// the temperature.
#[derive(Clone, Copy)]
pub(crate) struct Looked {
    pub(crate) claims: bool,
    pub(crate) picked: bool,
    pub(crate) clean: bool,
}

impl<'i> Grower<'i> {
    // Looks at one empty site that is listed no longer, and claims it for a type that attaches. It
    // tells whether there is one.
    #[inline(always)]
    pub(crate) fn look<C: Chooser, L: Ledger>(
        &mut self,
        lent: Setting<'_, '_>,
        chooser: &mut C,
        spot: Spot,
        steps: &mut Steps<L>,
    ) -> Looked
        requires can { CanLook lent self.old }
        requires taken { HasTaken lent.sys.now self.old spot }
        ensures can { CanLook lent.entry self.new }
        ensures looks { LooksAt lent.entry.sys.now self.old self.new }
        ensures tells { TellsLook lent.entry.sys.now spot.site self.old self.new result }
        ensures cost { TakesSteps self.old self.new steps.old steps.new }
    {
        if is_inner(&lent.area, spot.site) {
            return self.look_inside(lent, chooser, spot, steps);
        }
        let Spot { site, number } = spot;
        self.look_at_edge(lent, chooser, site, number, steps)
    }

    // The same at a site at no edge of the box.
    #[inline(always)]
    fn look_inside<C: Chooser, L: Ledger>(
        &mut self,
        lent: Setting<'_, '_>,
        chooser: &mut C,
        spot: Spot,
        steps: &mut Steps<L>,
    ) -> Looked
        requires inner { IsInner lent.area spot.site }
        requires can { CanLook lent self.old }
        requires taken { HasTaken lent.sys.now self.old spot }
        ensures can { CanLook lent.entry self.new }
        ensures looks { LooksAt lent.entry.sys.now self.old self.new }
        ensures tells { TellsLook lent.entry.sys.now spot.site self.old self.new result }
        ensures cost { TakesSteps self.old self.new steps.old steps.new }
    {
        let Setting { sys, table, area } = lent;
        sys.recall_valid();
        let grid = &self.growing.grid;
        let beside = beside_inner(grid, &area, spot);
        let Pick { tile, clean } = self.picker.pick(sys, grid, spot.site, &beside, chooser);
        let Some(tile) = tile else {
            return Looked {
                claims: false,
                picked: false,
                clean,
            };
        };
        let picked = self.growing.claim(sys, table, spot, tile, steps);
        self.work
            .list_inner(&self.growing.grid, &area, spot, &beside);
        Looked {
            claims: true,
            picked,
            clean,
        }
    }

    // The same at any site, which is handed over in parts, so that no site at no edge is written to
    // memory for it.
    #[inline(never)]
    fn look_at_edge<C: Chooser, L: Ledger>(
        &mut self,
        lent: Setting<'_, '_>,
        chooser: &mut C,
        site: Site,
        number: usize,
        steps: &mut Steps<L>,
    ) -> Looked
        requires can { CanLook lent self.old }
        requires taken { HasTaken lent.sys.now self.old (record { site = site; number = number }) }
        ensures can { CanLook lent.entry self.new }
        ensures looks { LooksAt lent.entry.sys.now self.old self.new }
        ensures tells { TellsLook lent.entry.sys.now site self.old self.new result }
        ensures cost { TakesSteps self.old self.new steps.old steps.new }
    {
        let Setting { sys, table, .. } = lent;
        sys.recall_valid();
        let grid = &self.growing.grid;
        let beside = grid.beside_at(site, number);
        let Pick { tile, clean } = self.picker.pick(sys, grid, site, &beside, chooser);
        let Some(tile) = tile else {
            return Looked {
                claims: false,
                picked: false,
                clean,
            };
        };
        let spot = Spot { site, number };
        let picked = self.growing.claim(sys, table, spot, tile, steps);
        self.work.list_around(&self.growing.grid, spot, &beside);
        Looked {
            claims: true,
            picked,
            clean,
        }
    }
}
