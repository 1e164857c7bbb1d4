// What the cells of an assembly name.
use crate::rules::quadrants::{
    EXCLUSIVE_OR, EXCLUSIVE_OR_PLACES, LOPSIDED, LOPSIDED_PLACES, WITHOUT_ONES,
    WITHOUT_ONES_PLACES, quadrant,
};
use assembly::Grid;
use quadrant_compile::{Quadrant, cell_at, compile_quadrant};
use std::alloc::Global;
use std::test::Fail;
use worked_systems::{Spot, grid_of};

// The symbols from the west and from the south.
type Symbols = Option<(u32, u32)>;

// Rules, places of their tiles, and what each cell names, row by row from the lowest one.
struct Named {
    rules: &'static str,
    places: &'static [Spot],
    cells: &'static [&'static [Symbols]],
}

const NAMED: [Named; 5] = [
    Named {
        rules: EXCLUSIVE_OR,
        places: &EXCLUSIVE_OR_PLACES,
        cells: &[&[Some((1, 1)), Some((0, 1))], &[Some((1, 0)), Some((1, 1))]],
    },
    Named {
        rules: WITHOUT_ONES,
        places: &WITHOUT_ONES_PLACES,
        cells: &[&[None, None], &[None, None]],
    },
    Named {
        rules: LOPSIDED,
        places: &LOPSIDED_PLACES,
        cells: &[
            &[Some((0, 1)), Some((2, 0)), None],
            &[Some((0, 1)), None, None],
        ],
    },
    // Whatever stands beside it, a cell's tile names its own symbols.
    Named {
        rules: EXCLUSIVE_OR,
        places: &[(2, 2, 5)],
        cells: &[&[None, None], &[None, Some((0, 0))]],
    },
    // A tile of a border names none, though the site isn't empty.
    Named {
        rules: EXCLUSIVE_OR,
        places: &[(1, 1, 0), (2, 1, 2), (1, 2, 4), (2, 2, 6)],
        cells: &[&[None, None], &[None, Some((0, 1))]],
    },
];

// What a cell names.
fn symbols_at(quadrant: &Quadrant, grid: &Grid, column: u32, row: u32) -> Symbols {
    if column < 1 || column > quadrant.width() || row < 1 || row > quadrant.height() {
        return None;
    }
    cell_at(quadrant, grid, column, row)
}

// Whether the cells of a row name these symbols.
fn is_row(quadrant: &Quadrant, grid: &Grid, row: u32, cells: &[Symbols]) -> bool {
    for (column, symbols) in (1u32..).zip(cells) {
        if symbols_at(quadrant, grid, column, row) != *symbols {
            return false;
        }
    }
    cells.len() == quadrant.width() as usize
}

fn is_named_so(alloc: Global, case: &Named) -> Result<bool, Fail> {
    let quadrant = quadrant(alloc, case.rules)?;
    let system = compile_quadrant(alloc, &quadrant)?;
    let grid = grid_of(alloc, &system, case.places)?;
    for (row, cells) in (1u32..).zip(case.cells) {
        if !is_row(&quadrant, &grid, row, cells) {
            return Ok(false);
        }
    }
    Ok(case.cells.len() == quadrant.height() as usize)
}

#[test]
fn cells_name_their_symbols(rt: HostRuntime) -> Result<(), Fail> {
    for (number, case) in NAMED.iter().enumerate() {
        assert!(rt; is_named_so(rt.alloc(), case)?, "{number}");
    }
    Ok(())
}
