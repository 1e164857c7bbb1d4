// A grid and a sequence of places.
use assembly::{Grid, Sequence, site_index, site_of_index};
use std::alloc::Global;
use std::test::Fail;
use tile_system::{BoxArea, NoMemory, Place, Placed, Site, TypeId};

const AREA: BoxArea = BoxArea {
    x0: -1,
    y0: -2,
    x1: 3,
    y1: 4,
};

// The least corner, the greatest and a site between: a tile at each, and its number in the box.
const TILES: [(i32, i32, u32, usize); 3] = [(-1, -2, 0, 0), (3, 4, 16383, 34), (0, 1, 7, 16)];

// Sites outside and inside of the box without a tile.
const FREE: [Site; 2] = [Site { x: 4, y: 1 }, Site { x: 1, y: 0 }];

fn place(x: i32, y: i32, tile: u32) -> Place {
    Place {
        site: Site { x, y },
        tile: TypeId(tile),
    }
}

// Puts a tile where its site is free.
fn put_free(grid: &mut Grid, place: Place) {
    if grid.area().holds(place.site) && grid.at(place.site).is_none() && place.tile.0 < 16384 {
        grid.put(place);
    }
}

// A grid with the tiles.
fn filled_grid(alloc: Global) -> Result<Grid, NoMemory> {
    let mut grid = Grid::make(alloc, AREA)?;
    for (x, y, tile, _) in TILES {
        put_free(&mut grid, place(x, y, tile));
    }
    Ok(grid)
}

// The number of a site, if it is in the box.
fn number(site: Site) -> Option<usize> {
    if AREA.holds(site) {
        let index = site_index(&AREA, site);
        (site_of_index(&AREA, index) == site).then_some(index)
    } else {
        None
    }
}

// Whether each tile is in the grid, and its site has its number.
fn has_tiles(grid: &Grid) -> bool {
    for (x, y, tile, index) in TILES {
        let site = Site { x, y };
        if grid.at(site) != Some(TypeId(tile)) || number(site) != Some(index) {
            return false;
        }
    }
    true
}

// Whether no tile is at the free sites.
fn has_gaps(grid: &Grid) -> bool {
    FREE.iter().all(|site| grid.at(*site).is_none())
}

// Whether the grid has just the tiles.
fn has_just_tiles(grid: &Grid) -> bool {
    grid.area() == AREA && grid.count() == 3 && has_tiles(grid) && has_gaps(grid)
}

// Whether the grid has no tile.
fn is_empty(grid: &Grid) -> bool {
    grid.count() == 0 && grid.at(Site { x: 0, y: 1 }).is_none()
}

// Clears the grid, adds the tiles of a copy again, and answers whether it was empty between.
fn is_refilled(grid: &mut Grid) -> Result<bool, NoMemory> {
    let copy = grid.copy()?;
    grid.clear();
    let was_empty = is_empty(grid);
    grid.merge(&copy);
    Ok(was_empty)
}

#[test]
fn grids_hold_tiles(rt: HostRuntime) -> Result<(), Fail> {
    let mut grid = filled_grid(rt.alloc())?;
    assert!(rt; has_just_tiles(&grid));
    assert!(rt; is_refilled(&mut grid)?);
    assert!(rt; has_just_tiles(&grid));
    Ok(())
}

// Near places, then the least and the greatest numbers that a place may have, and the first and the
// last that are told in 21 bits, each with the next beyond it.
fn places() -> [Place; 11] {
    [
        place(-1, -2, 0),
        place(3, 4, 16_383),
        place(0, 1, 7),
        place(0, -1, 0),
        place(i32::MIN, i32::MAX, u32::MAX),
        place(-1_048_576, 1_048_575, 2_097_151),
        place(-1_048_577, 0, 1),
        place(0, 1_048_576, 2),
        place(1, 1, 2_097_152),
        place(-1_000_000, 1_000_000, 16_383),
        place(i32::MAX, i32::MIN, 0),
    ]
}

// A sequence of these places.
fn sequence_of(alloc: Global, places: &[Place]) -> Result<Sequence, NoMemory> {
    let mut sequence = Sequence::make(alloc);
    for place in places {
        sequence.push(*place)?;
    }
    Ok(sequence)
}

// Whether the sequence has so many places, and begins with these.
fn begins_so(sequence: &Sequence, places: &[Place], count: usize) -> bool {
    sequence.len() == count
        && sequence.starts_with(places)
        && !sequence.starts_with(&[place(-1, -2, 1)])
}

#[test]
fn sequences_hold_places(rt: HostRuntime) -> Result<(), Fail> {
    let places = places();
    let mut sequence = sequence_of(rt.alloc(), &places)?;
    let copy = sequence.copy()?;
    sequence.push(place(7, 7, 7))?;
    assert!(rt; begins_so(&copy, &places, 11));
    assert!(rt; begins_so(&sequence, &places, 12));
    Ok(())
}
