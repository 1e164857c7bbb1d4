// Scouts on two small systems, event by event.
ghost use Rattle.std.specs.Prelude.{◌≡◌};
ghost use Rattle.grow_core.specs.Core.{CoreInvariant};

use atam::{CoreStop, Event, Seen};
use grow_core::Core;
use std::test::Fail;
use tile_system::{Placed, Site, System, TypeId};
use worked_systems::{MISMATCH, RIVALS, system};

const S: TypeId = TypeId(0);

const A: TypeId = TypeId(1);

const B: TypeId = TypeId(2);

const fn at(x: i32, y: i32) -> Site {
    Site { x, y }
}

type Reply = Result<Seen, CoreStop>;

const NO_SCOUT: Reply = Err(CoreStop::NoSuchScout);

const OUTSIDE: Reply = Err(CoreStop::OutsideBox);

// Two scouts meet at the site of two rivals.
const MEETING: [(Event, Reply); 5] = [
    (Event::Split { who: 0 }, Ok(Seen::Divided(63))),
    (
        Event::Claim {
            who: 0,
            site: Site { x: 1, y: 0 },
            tile: A,
        },
        Ok(Seen::Won),
    ),
    (
        Event::Claim {
            who: 63,
            site: Site { x: 1, y: 0 },
            tile: B,
        },
        Ok(Seen::Held(A)),
    ),
    (
        Event::Claim {
            who: 63,
            site: Site { x: 0, y: 0 },
            tile: B,
        },
        Err(CoreStop::NotSupported { pull: 0 }),
    ),
    (
        Event::Claim {
            who: 63,
            site: Site { x: 1, y: 0 },
            tile: TypeId(3),
        },
        Err(CoreStop::NotSupported { pull: 0 }),
    ),
];

// One scout beside a tile that two sides hold and that mismatches on a third.
const LOOKING: [(Event, Reply); 8] = [
    (
        Event::Claim {
            who: 0,
            site: Site { x: 1, y: 0 },
            tile: TypeId(1),
        },
        Ok(Seen::Won),
    ),
    (
        Event::Claim {
            who: 0,
            site: Site { x: 1, y: 1 },
            tile: TypeId(4),
        },
        Err(CoreStop::NotSupported { pull: 1 }),
    ),
    (
        Event::Look {
            who: 0,
            site: Site { x: 2, y: 0 },
        },
        Ok(Seen::Saw(None)),
    ),
    (
        Event::Claim {
            who: 1,
            site: Site { x: 1, y: 0 },
            tile: TypeId(1),
        },
        NO_SCOUT,
    ),
    (
        Event::Look {
            who: 0,
            site: Site { x: 3, y: 0 },
        },
        OUTSIDE,
    ),
    (Event::Split { who: 0 }, Ok(Seen::Divided(63))),
    (Event::Split { who: 63 }, Err(CoreStop::NoNumberLeft)),
    (Event::Join { into: 63, from: 0 }, Ok(Seen::Joined(0))),
];

// What follows where scout 0 has one number left.
const NAMES: [(Event, Reply); 12] = [
    (Event::Split { who: 0 }, Err(CoreStop::NoNumberLeft)),
    (
        Event::Claim {
            who: 1,
            site: Site { x: 1, y: 0 },
            tile: A,
        },
        Ok(Seen::Won),
    ),
    (
        Event::Claim {
            who: 2,
            site: Site { x: 1, y: 0 },
            tile: B,
        },
        Ok(Seen::Held(A)),
    ),
    (
        Event::Claim {
            who: 0,
            site: Site { x: 0, y: 0 },
            tile: S,
        },
        Err(CoreStop::NotSupported { pull: 0 }),
    ),
    (
        Event::Look {
            who: 0,
            site: Site { x: 1, y: 0 },
        },
        Ok(Seen::Saw(Some(A))),
    ),
    (
        Event::Claim {
            who: 0,
            site: Site { x: 0, y: 0 },
            tile: S,
        },
        Ok(Seen::Held(S)),
    ),
    (
        Event::Claim {
            who: 0,
            site: Site { x: -1, y: 0 },
            tile: A,
        },
        OUTSIDE,
    ),
    (Event::Join { into: 0, from: 1 }, Ok(Seen::Joined(0))),
    (Event::Join { into: 1, from: 0 }, NO_SCOUT),
    (Event::Join { into: 0, from: 0 }, NO_SCOUT),
    (
        Event::Look {
            who: 4294967295,
            site: Site { x: 0, y: 0 },
        },
        NO_SCOUT,
    ),
    (Event::Split { who: 4294967295 }, NO_SCOUT),
];

// The index of the first event whose reply is another one.
fn first_unlike(core: &mut Core, sys: &System, script: &[(Event, Reply)]) -> Option<usize>
    requires area { core.old.area ≡ sys.now.area }
    requires invariant { CoreInvariant sys.now core.old.state }
    ensures area { core.new.area ≡ sys.now.area }
    ensures invariant { CoreInvariant sys.now core.new.state }
{
    for index in 0..script.len() {
        let (event, reply) = script[index];
        if core.step(sys, event) != reply {
            return Some(index);
        }
    }
    None
}

// Whether these scouts own these numbers.
fn are_owned(core: &Core, owned: &[(u32, Option<u64>)]) -> bool {
    for (who, numbers) in owned {
        if core.owned_by(*who) != *numbers {
            return false;
        }
    }
    true
}

// What this scout has seen at the site of the rivals.
fn seen_beside(core: &Core, who: u32) -> Option<TypeId> {
    match core.seen_by(who) {
        Some(seen) => seen.at(at(1, 0)),
        None => None,
    }
}

#[test]
fn two_scouts_meet_at_a_site(rt: HostRuntime) -> Result<(), Fail> {
    let sys = system(rt.alloc(), RIVALS)?;
    let mut core = Core::make(rt.alloc(), &sys)?;
    assert_eq!(rt; first_unlike(&mut core, &sys, &MEETING), None);
    assert_eq!(rt; core.grid().count(), 2);
    assert!(rt; seen_beside(&core, 63) == Some(A) && core.seen_by(1).is_none());
    let owned = [(0, Some((1 << 63) - 1)), (63, Some(1 << 63)), (1, None)];
    assert!(rt; are_owned(&core, &owned));
    let placers = [
        core.placer_at(at(0, 0)),
        core.placer_at(at(1, 0)),
        core.placer_at(at(2, 0)),
    ];
    assert!(rt; placers == [Some(65535), Some(0), None]);
    Ok(())
}

#[test]
fn one_scout_looks_claims_and_joins(rt: HostRuntime) -> Result<(), Fail> {
    let sys = system(rt.alloc(), MISMATCH)?;
    let mut core = Core::make(rt.alloc(), &sys)?;
    assert_eq!(rt; first_unlike(&mut core, &sys, &LOOKING), None);
    assert_eq!(rt; core.grid().count(), 2);
    assert!(rt; are_owned(&core, &[(0, Some(u64::MAX)), (63, None)]));
    Ok(())
}

// Splits scout 0 down to its last number, as far as the replies are right.
fn split_all(core: &mut Core, sys: &System) -> u32
    requires area { core.old.area ≡ sys.now.area }
    requires invariant { CoreInvariant sys.now core.old.state }
    ensures area { core.new.area ≡ sys.now.area }
    ensures invariant { CoreInvariant sys.now core.new.state }
{
    for given in 0..63 {
        if core.step(sys, Event::Split { who: 0 }) != Ok(Seen::Divided(63 - given)) {
            return given;
        }
    }
    63
}

#[test]
fn names_live_and_die(rt: HostRuntime) -> Result<(), Fail> {
    let sys = system(rt.alloc(), RIVALS)?;
    let mut core = Core::make(rt.alloc(), &sys)?;
    assert_eq!(rt; split_all(&mut core, &sys), 63);
    assert_eq!(rt; first_unlike(&mut core, &sys, &NAMES), None);
    assert!(rt; are_owned(&core, &[(0, Some(3)), (1, None), (4294967295, None)]));
    assert!(rt; core.placer_at(at(1, 0)) == Some(1));
    assert!(rt; core.step(&sys, Event::Split { who: 0 }) == Ok(Seen::Divided(1)));
    assert!(rt; are_owned(&core, &[(1, Some(2))]));
    Ok(())
}
