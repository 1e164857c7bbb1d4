// The least open site outside the box. Such a site is beside the box.
ghost use Rattle.std.specs.Prelude.{◌≡◌, ◌≤ℤ◌, ◌+ℤ◌, ◌-ℤ◌, pos};
ghost use Rattle.atam.specs.declared.site.Site.{Site};
ghost use Rattle.atam.specs.Sites.{HasCorners, InBox, IsNearSite};
ghost use Rattle.atam.specs.Assembly.{Fits};
ghost use Rattle.atam.specs.Growth.{IsLeastOpenAmong, IsLeastOpenOutside};
ghost use Rattle.attach_rule.specs.Inner.Searches.{row_at, IsAtEnds, IsBesideBox};

use crate::facing::glue_of;
use crate::inside::open_at;
use crate::{EachType, TypeFinder};
use tile_system::{BoxArea, Placed, Side, Site, System, TypeId};

// The site beside the box, if it is open. The box is in this direction from it, so no tile but the
// one there can hold one here, and the finder looks only where a glue of that tile faces the site.
#[inline(always)]
#[tactic(auto, using(crate::proofs::Held::kind_beside))]
fn open_beside<F: TypeFinder, P: Placed>(
    finder: &F,
    sys: &System,
    placed: &P,
    site: Site,
    side: Side,
) -> Option<(Site, TypeId)>
    requires system { F.serves finder.now sys.now }
    requires near { IsNearSite site }
    requires fits { Fits sys.now (P.placements placed.now) }
    requires beside { IsBesideBox sys.now.area side site }
    ensures { IsLeastOpenAmong sys.now (P.placements placed.now) (λ m. m ≡ site) result }
{
    sys.recall_valid();
    let Some(_glue) = glue_of(sys, placed.at(site.step(side)), side.opposite()) else {
        return None;
    };
    open_at(finder, sys, placed, site)
}

// The least open site of the row below or above the box, which is in this direction from it.
fn least_beside<F: TypeFinder, P: Placed>(
    finder: &F,
    sys: &System,
    placed: &P,
    area: &BoxArea,
    y: i32,
    side: Side,
) -> Option<(Site, TypeId)>
    requires system { F.serves finder.now sys.now }
    requires corners { HasCorners area.now }
    requires bottom { (area.now.y0 -ℤ pos 1) ≤ℤ y }
    requires top { y ≤ℤ (area.now.y1 +ℤ pos 1) }
    requires fits { Fits sys.now (P.placements placed.now) }
    requires beside { (m : Site) → InBox (row_at area.now y) m → IsBesideBox sys.now.area side m }
    ensures { IsLeastOpenAmong sys.now (P.placements placed.now)
        (InBox (row_at area.now y)) result }
{
    for column in 0..area.width() {
        let site = Site {
            x: area.x0 + column as i32,
            y,
        };
        if let Some(found) = open_beside(finder, sys, placed, site, side) {
            return Some(found);
        }
    }
    None
}

// The least open site of the two at the ends of a row of the box.
fn least_at_row_ends<F: TypeFinder, P: Placed>(
    finder: &F,
    sys: &System,
    placed: &P,
    area: &BoxArea,
    y: i32,
) -> Option<(Site, TypeId)>
    requires system { F.serves finder.now sys.now }
    requires area { area.now ≡ sys.now.area }
    requires corners { HasCorners area.now }
    requires bottom { area.now.y0 ≤ℤ y }
    requires top { y ≤ℤ area.now.y1 }
    requires fits { Fits sys.now (P.placements placed.now) }
    ensures { IsLeastOpenAmong sys.now (P.placements placed.now)
        (IsAtEnds (row_at area.now y)) result }
{
    let west = Site { x: area.x0 - 1, y };
    if let Some(found) = open_beside(finder, sys, placed, west, Side::East) {
        return Some(found);
    }
    let east = Site { x: area.x1 + 1, y };
    open_beside(finder, sys, placed, east, Side::West)
}

// The least open site at the ends of the box's rows.
fn least_at_ends<F: TypeFinder, P: Placed>(
    finder: &F,
    sys: &System,
    placed: &P,
    area: &BoxArea,
) -> Option<(Site, TypeId)>
    requires system { F.serves finder.now sys.now }
    requires area { area.now ≡ sys.now.area }
    requires corners { HasCorners area.now }
    requires fits { Fits sys.now (P.placements placed.now) }
    ensures { IsLeastOpenAmong sys.now (P.placements placed.now) (IsAtEnds area.now) result }
{
    for row in 0..area.height() {
        if let Some(found) = least_at_row_ends(finder, sys, placed, area, area.y0 + row as i32) {
            return Some(found);
        }
    }
    None
}

/// The same as `least_open_outside`, by this finder.
pub fn least_open_outside_by<F: TypeFinder, P: Placed>(
    finder: &F,
    sys: &System,
    placed: &P,
) -> Option<(Site, TypeId)>
    requires system { F.serves finder.now sys.now }
    requires fits { Fits sys.now (P.placements placed.now) }
    ensures { IsLeastOpenOutside sys.now (P.placements placed.now) result }
{
    let area = sys.area();
    if let Some(below) = least_beside(finder, sys, placed, &area, area.y0 - 1, Side::North) {
        return Some(below);
    }
    if let Some(beside) = least_at_ends(finder, sys, placed, &area) {
        return Some(beside);
    }
    least_beside(finder, sys, placed, &area, area.y1 + 1, Side::South)
}

/// The least site outside the box where a type attaches, with the first such type.
pub fn least_open_outside<P: Placed>(sys: &System, placed: &P) -> Option<(Site, TypeId)>
    requires { Fits sys.now (P.placements placed.now) }
    ensures { IsLeastOpenOutside sys.now (P.placements placed.now) result }
{
    least_open_outside_by(&EachType, sys, placed)
}
