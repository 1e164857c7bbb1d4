// Looks at the sites of the box.
ghost use Rattle.std.specs.Prelude.{◌≡◌, ◌<◌};
ghost use Rattle.assembly.specs.Cells.{cell_count};
ghost use Rattle.assembly.specs.Rows.{IsRow};
ghost use Rattle.site_table.specs.Seats.{IsSeatOf};
ghost use Rattle.watch_frames.specs.Watchers.{HasSeen, LooksOn};

use assembly::{Grid, Row};
use site_table::{SiteSeat, SiteTable};
use tile_system::{Place, System};

// Looks at each site of the box where it has seen no tile, in one pass: a tile that is there stays.
pub(crate) fn look_over(sys: &System, table: &SiteTable, seat: &mut SiteSeat, seen: &mut Grid)
    requires seat { IsSeatOf table.now seat.old }
    requires system { table.now.sys ≡ sys.now }
    requires seen { HasSeen sys.now seat.old seen.old }
    ensures { LooksOn sys.now seat.old seen.old seat.new seen.new }
{
    let area = sys.area();
    let sites = area.width() as usize * area.height() as usize;
    let mut row = Row::least(&area);
    for number in 0..sites {
        look_at(sys, table, seat, seen, &mut row, number);
    }
}

// One look, where no tile was seen: only there the site is worked out.
#[inline(always)]
fn look_at(
    sys: &System,
    table: &SiteTable,
    seat: &mut SiteSeat,
    seen: &mut Grid,
    row: &mut Row,
    number: usize,
)
    requires seat { IsSeatOf table.now seat.old }
    requires system { table.now.sys ≡ sys.now }
    requires seen { HasSeen sys.now seat.old seen.old }
    requires within { number < cell_count sys.now.area }
    requires row { IsRow sys.now.area row.old }
    ensures looks { LooksOn sys.now seat.old seen.old seat.new seen.new }
    ensures row { IsRow sys.now.area row.new }
{
    if seen.tile(number).is_some() {
        return;
    }
    sys.recall_valid();
    let area = sys.area();
    let site = row.site(&area, number);
    let Some(tile) = table.look_at(seat, site, number) else {
        return;
    };
    seen.put_at(Place { site, tile }, number);
}
