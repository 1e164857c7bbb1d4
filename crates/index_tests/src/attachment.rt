// The types that attach beside a seed, and the least open site.
use attach_rule::{TypeList, candidates, least_open};
use std::test::Fail;
use tile_system::{Site, TypeId};
use worked_systems::{RIVALS, grid_of, system};

const START: Site = Site { x: 0, y: 0 };

const BESIDE: Site = Site { x: 1, y: 0 };

#[test]
fn candidates_are_listed_by_index(rt: HostRuntime) -> Result<(), Fail> {
    let sys = system(rt.alloc(), RIVALS)?;
    let tiles = grid_of(rt.alloc(), &sys, &[(0, 0, 0)])?;
    let mut list = TypeList::make(rt.alloc(), &sys)?;
    candidates(&sys, &tiles, BESIDE, &mut list);
    assert_eq!(rt; list.len(), 2);
    assert!(rt; list.get(0) == TypeId(1) && list.get(1) == TypeId(2));
    assert!(rt; least_open(&sys, &tiles) == Some((BESIDE, TypeId(1))));
    candidates(&sys, &tiles, START, &mut list);
    assert!(rt; list.len() == 0);
    Ok(())
}
