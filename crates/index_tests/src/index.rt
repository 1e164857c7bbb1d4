// The index of types against the plain calls, on random systems, without pairs and with them, and
// random assemblies in them.
ghost use Rattle.std.specs.Prelude.{◌≡◌, ◌<◌, IfOk};
ghost use Rattle.atam.specs.Sites.{IsNearSite};
ghost use Rattle.atam.specs.Assembly.{Fits};
ghost use Rattle.type_index.specs.Indexes.{IsIndexOf};
ghost use Rattle.type_cache.specs.Findings.{AreFindings};

use crate::random::{Kind, Numbers, random_grid, random_system};
use assembly::{Grid, site_of_index};
use attach_rule::{
    TypeList, can_attach, candidates, closed_in_box, least_open, least_open_outside,
};
use std::alloc::Global;
use std::test::Fail;
use tile_system::{BuildStop, NoMemory, Placed, Site, System, TypeId};
use type_cache::FacingCache;
use type_index::{Found, TypeIndex};

// Whether two lists have the same types.
fn have_same(first: &TypeList, second: &TypeList) -> bool {
    let count = first.len();
    if second.len() != count {
        return false;
    }
    for index in 0..count {
        if first.get(index) != second.get(index) {
            return false;
        }
    }
    true
}

// The first type of a list other than this one.
fn first_but(list: &TypeList, but: TypeId) -> Option<TypeId> {
    for index in 0..list.len() {
        if list.get(index) != but {
            return Some(list.get(index));
        }
    }
    None
}

// The type in a list at this index.
fn entry(list: &TypeList, index: u32) -> Option<TypeId> {
    if index < list.len() {
        Some(list.get(index))
    } else {
        None
    }
}

// What the list says of the types that attach.
fn found_of(list: &TypeList) -> Found {
    Found {
        count: list.len(),
        first: entry(list, 0),
        second: entry(list, 1),
    }
}

// Whether the index finds at a site what the plain calls find.
fn are_same_at(
    alloc: Global,
    sys: &System,
    index: &TypeIndex,
    cache: &mut FacingCache,
    grid: &Grid,
    site: Site,
) -> Result<bool, NoMemory>
    requires index { IsIndexOf sys.now index.now }
    requires known { AreFindings sys.now cache.old }
    requires near { IsNearSite site }
    requires fits { Fits sys.now grid.now.tiles }
    ensures { AreFindings sys.now cache.new }
{
    let found = found_at(sys, index, cache, grid, site);
    let mut plain = TypeList::make(alloc, sys)?;
    candidates(sys, grid, site, &mut plain);
    if found != found_of(&plain) || !has_same_others(sys, index, grid, site, &plain) {
        return Ok(false);
    }
    is_listed(alloc, sys, index, grid, site, &plain)
}

// Whether the index lists at a site these types.
fn is_listed(
    alloc: Global,
    sys: &System,
    index: &TypeIndex,
    grid: &Grid,
    site: Site,
    plain: &TypeList,
) -> Result<bool, NoMemory>
    requires index { IsIndexOf sys.now index.now }
    requires near { IsNearSite site }
    requires fits { Fits sys.now grid.now.tiles }
{
    let mut listed = TypeList::make(alloc, sys)?;
    index.candidates(sys, grid, site, &mut listed);
    Ok(have_same(plain, &listed))
}

// What the cache finds at a site, where a tile may stand.
fn found_at(
    sys: &System,
    index: &TypeIndex,
    cache: &mut FacingCache,
    grid: &Grid,
    site: Site,
) -> Found
    requires index { IsIndexOf sys.now index.now }
    requires known { AreFindings sys.now cache.old }
    requires near { IsNearSite site }
    requires fits { Fits sys.now grid.now.tiles }
    ensures { AreFindings sys.now cache.new }
{
    if grid.at(site).is_some() {
        return Found {
            count: 0,
            first: None,
            second: None,
        };
    }
    let beside = grid.beside(site);
    cache.found_beside(sys, index, grid, site, &beside)
}

// Whether the index finds for each type the first other one.
fn has_same_others(
    sys: &System,
    index: &TypeIndex,
    grid: &Grid,
    site: Site,
    plain: &TypeList,
) -> bool
    requires index { IsIndexOf sys.now index.now }
    requires near { IsNearSite site }
    requires fits { Fits sys.now grid.now.tiles }
{
    for number in 0..sys.type_count() {
        let but = TypeId(number);
        if index.first_other(sys, grid, site, but) != first_but(plain, but) {
            return false;
        }
    }
    true
}

// Whether the index finds at each site of the box, and as the least open one, what the plain calls
// find.
fn are_same(alloc: Global, sys: &System, grid: &Grid) -> Result<bool, NoMemory>
    requires { Fits sys.now grid.now.tiles }
{
    let index = TypeIndex::build(alloc, sys)?;
    is_same_by(alloc, sys, &index, grid)
}

// Whether this index finds the same, also by a cache.
fn is_same_by(alloc: Global, sys: &System, index: &TypeIndex, grid: &Grid) -> Result<bool, NoMemory>
    requires index { IsIndexOf sys.now index.now }
    requires fits { Fits sys.now grid.now.tiles }
{
    if !is_same_least(sys, index, grid) {
        return Ok(false);
    }
    let mut cache = FacingCache::make(alloc, sys)?;
    are_same_sites(alloc, sys, index, &mut cache, grid)
}

// Whether the index finds the same least open sites.
fn is_same_least(sys: &System, index: &TypeIndex, grid: &Grid) -> bool
    requires index { IsIndexOf sys.now index.now }
    requires fits { Fits sys.now grid.now.tiles }
{
    index.least_open(sys, grid) == least_open(sys, grid)
        && index.least_open_outside(sys, grid) == least_open_outside(sys, grid)
}

// Whether the index and the cache find the same at each site of the box.
fn are_same_sites(
    alloc: Global,
    sys: &System,
    index: &TypeIndex,
    cache: &mut FacingCache,
    grid: &Grid,
) -> Result<bool, NoMemory>
    requires index { IsIndexOf sys.now index.now }
    requires known { AreFindings sys.now cache.old }
    requires fits { Fits sys.now grid.now.tiles }
{
    let area = sys.area();
    let count = area.width() as usize * area.height() as usize;
    for number in 0..count {
        let site = site_of_index(&area, number);
        if !are_same_at(alloc, sys, index, cache, grid, site)? {
            return Ok(false);
        }
    }
    Ok(true)
}

// Whether just the types that are listed attach at a site, asked one by one.
fn attach_alone(sys: &System, grid: &Grid, site: Site, listed: &TypeList) -> bool
    requires near { IsNearSite site }
    requires fits { Fits sys.now grid.now.tiles }
{
    let mut next = 0;
    for number in 0..sys.type_count() {
        let tile = TypeId(number);
        if can_attach(sys, grid, site, tile) {
            if next >= listed.len() || entry(listed, next) != Some(tile) {
                return false;
            }
            next += 1;
        }
    }
    next == listed.len()
}

// How many types the plain calls list at a site, if just these attach, asked one by one.
fn attaching_at(
    alloc: Global,
    sys: &System,
    grid: &Grid,
    site: Site,
) -> Result<Option<u32>, NoMemory>
    requires near { IsNearSite site }
    requires fits { Fits sys.now grid.now.tiles }
{
    let mut listed = TypeList::make(alloc, sys)?;
    candidates(sys, grid, site, &mut listed);
    Ok(attach_alone(sys, grid, site, &listed).then_some(listed.len()))
}

// Whether the box is closed just where no type is listed at any site of it.
fn is_closed_alike(alloc: Global, sys: &System, grid: &Grid) -> Result<bool, NoMemory>
    requires { Fits sys.now grid.now.tiles }
{
    let area = sys.area();
    let count = area.width() as usize * area.height() as usize;
    let mut is_closed = true;
    for number in 0..count {
        let site = site_of_index(&area, number);
        let Some(attaching) = attaching_at(alloc, sys, grid, site)? else {
            return Ok(false);
        };
        is_closed = is_closed && attaching == 0;
    }
    Ok(closed_in_box(sys, grid) == is_closed)
}

// Whether the index takes a random assembly of the system as the plain calls do, and these as one
// another.
fn are_alike(alloc: Global, sys: &System, numbers: &mut Numbers) -> Result<bool, NoMemory> {
    let grid = random_grid(alloc, sys, numbers)?;
    Ok(are_same(alloc, sys, &grid)? && is_closed_alike(alloc, sys, &grid)?)
}

// The same of the system of these numbers.
fn is_alike(alloc: Global, kind: Kind, state: u32) -> Result<bool, BuildStop> {
    let mut numbers = Numbers { state };
    let sys = random_system(alloc, kind, &mut numbers)?;
    let alike = are_alike(alloc, &sys, &mut numbers)?;
    Ok(alike)
}

// The first number, below a bound, whose system or assembly is taken otherwise.
fn first_unlike(alloc: Global, kind: Kind, bound: u32) -> Result<Option<u32>, BuildStop> {
    for state in 0..bound {
        if !is_alike(alloc, kind, state)? {
            return Ok(Some(state));
        }
    }
    Ok(None)
}

#[test]
fn index_finds_what_the_plain_calls_find(rt: HostRuntime) -> Result<(), Fail> {
    assert_eq!(rt; first_unlike(rt.alloc(), Kind::OneSeed, 200)?, None);
    assert_eq!(rt; first_unlike(rt.alloc(), Kind::SeedsAndPairs, 300)?, None);
    Ok(())
}
