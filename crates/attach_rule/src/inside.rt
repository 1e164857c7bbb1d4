// The least open site of the box.
ghost use Rattle.std.specs.Prelude.{◌≡◌, ◌≤ℤ◌, ◌↔◌, IsTrue};
ghost use Rattle.atam.specs.Sites.{IsNearSite, HasCorners, InBox};
ghost use Rattle.atam.specs.Assembly.{Fits};
ghost use Rattle.atam.specs.Growth.{IsClosedInBox, IsLeastOpenAmong};
ghost use Rattle.attach_rule.specs.Inner.Searches.{row_at};

use crate::{EachType, TypeFinder};
use tile_system::{BoxArea, Placed, Site, System, TypeId};

// The site, if it is open, with the first type that attaches there.
#[inline(always)]
pub(crate) fn open_at<F: TypeFinder, P: Placed>(
    finder: &F,
    sys: &System,
    placed: &P,
    site: Site,
) -> Option<(Site, TypeId)>
    requires system { F.serves finder.now sys.now }
    requires near { IsNearSite site }
    requires fits { Fits sys.now (P.placements placed.now) }
    ensures { IsLeastOpenAmong sys.now (P.placements placed.now) (λ m. m ≡ site) result }
{
    finder
        .first_type(sys, placed, site)
        .map(|tile| (site, tile))
}

// The least open site in a row of the box.
fn least_in_row<F: TypeFinder, P: Placed>(
    finder: &F,
    sys: &System,
    placed: &P,
    area: &BoxArea,
    y: i32,
) -> Option<(Site, TypeId)>
    requires system { F.serves finder.now sys.now }
    requires corners { HasCorners area.now }
    requires bottom { area.now.y0 ≤ℤ y }
    requires top { y ≤ℤ area.now.y1 }
    requires fits { Fits sys.now (P.placements placed.now) }
    ensures { IsLeastOpenAmong sys.now (P.placements placed.now)
        (InBox (row_at area.now y)) result }
{
    for column in 0..area.width() {
        let site = Site {
            x: area.x0 + column as i32,
            y,
        };
        if let Some(found) = open_at(finder, sys, placed, site) {
            return Some(found);
        }
    }
    None
}

/// The same as `least_open_inside`, by this finder.
pub fn least_open_inside_by<F: TypeFinder, P: Placed>(
    finder: &F,
    sys: &System,
    placed: &P,
) -> Option<(Site, TypeId)>
    requires system { F.serves finder.now sys.now }
    requires fits { Fits sys.now (P.placements placed.now) }
    ensures { IsLeastOpenAmong sys.now (P.placements placed.now) (InBox sys.now.area) result }
{
    let area = sys.area();
    for row in 0..area.height() {
        if let Some(found) = least_in_row(finder, sys, placed, &area, area.y0 + row as i32) {
            return Some(found);
        }
    }
    None
}

/// The least site of the box where a type attaches, with the first such type.
pub fn least_open_inside<P: Placed>(sys: &System, placed: &P) -> Option<(Site, TypeId)>
    requires { Fits sys.now (P.placements placed.now) }
    ensures { IsLeastOpenAmong sys.now (P.placements placed.now) (InBox sys.now.area) result }
{
    least_open_inside_by(&EachType, sys, placed)
}

/// Whether no type attaches at any site of the box.
pub fn closed_in_box<P: Placed>(sys: &System, placed: &P) -> bool
    requires { Fits sys.now (P.placements placed.now) }
    ensures { IsTrue result ↔ IsClosedInBox sys.now (P.placements placed.now) }
{
    least_open_inside(sys, placed).is_none()
}
