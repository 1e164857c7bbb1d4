// Places given by column, row and type, as far as they fit a system.
ghost use Rattle.std.specs.Prelude.{◌≡◌, ◌<◌, ◌≤◌, ◌+◌, ◌^◌, length, IfOk, IfSome, OnOk};
ghost use Rattle.atam.specs.declared.limits.TheConstants.{MOST_TYPES};
ghost use Rattle.atam.specs.Sites.{InBox};
ghost use Rattle.atam.specs.TileSystem.{IsType};
ghost use Rattle.atam.specs.Assembly.{Fits};

use assembly::{Grid, Sequence};
use std::alloc::Global;
use tile_system::{NoMemory, Place, Placed, Site, System, TypeId};

/// A column, a row and the index of a type.
pub type Spot = (i32, i32, u32);

/// The place, if it is of a type of the system and in its box.
pub fn fitting_place(sys: &System, spot: Spot) -> Option<Place>
    ensures kind { IfSome result (λ place. IsType sys.now place.tile) }
    ensures inside { IfSome result (λ place. InBox sys.now.area place.site) }
    ensures small { IfSome result (λ place. place.tile.0 < MOST_TYPES) }
{
    let (x, y, tile) = spot;
    let site = Site { x, y };
    if tile < sys.type_count() && sys.area().holds(site) {
        Some(Place {
            site,
            tile: TypeId(tile),
        })
    } else {
        None
    }
}

/// A grid with these places.
pub fn grid_of(alloc: Global, sys: &System, spots: &[Spot]) -> Result<Grid, NoMemory>
    ensures area { IfOk result (λ grid. grid.area ≡ sys.now.area) }
    ensures fits { IfOk result (λ grid. Fits sys.now grid.tiles) }
{
    let mut grid = Grid::make(alloc, sys.area())?;
    for spot in spots {
        put_fitting(sys, &mut grid, *spot);
    }
    Ok(grid)
}

/// Puts a place where it fits and its site is free.
pub fn put_fitting(sys: &System, grid: &mut Grid, spot: Spot)
    requires area { grid.old.area ≡ sys.now.area }
    requires fits { Fits sys.now grid.old.tiles }
    ensures area { grid.new.area ≡ sys.now.area }
    ensures fits { Fits sys.now grid.new.tiles }
{
    if let Some(place) = fitting_place(sys, spot) {
        if grid.at(place.site).is_none() {
            grid.put(place);
        }
    }
}

/// A sequence of these places.
pub fn sequence_of(alloc: Global, sys: &System, spots: &[Spot]) -> Result<Sequence, NoMemory>
    requires { length spots.now < 2 ^ 32 }
    ensures fits { IfOk result (Fits sys.now) }
    ensures short { IfOk result (λ order. length order < 2 ^ 32) }
{
    let mut order = Sequence::make(alloc);
    for spot in spots {
        push_fitting(sys, &mut order, *spot)?;
    }
    Ok(order)
}

// Lists a place where it fits.
fn push_fitting(sys: &System, order: &mut Sequence, spot: Spot) -> Result<(), NoMemory>
    requires { Fits sys.now order.old }
    ensures fits { OnOk result (Fits sys.now order.new) }
    ensures few { length order.new ≤ length order.old + 1 }
{
    match fitting_place(sys, spot) {
        Some(place) => order.push(place),
        None => Ok(()),
    }
}

/// Whether a sequence has these places.
pub fn lists(sys: &System, order: &Sequence, spots: &[Spot]) -> bool {
    if order.len() != spots.len() {
        return false;
    }
    for (index, spot) in spots.iter().enumerate() {
        if fitting_place(sys, *spot) != Some(order.get(index)) {
            return false;
        }
    }
    true
}
