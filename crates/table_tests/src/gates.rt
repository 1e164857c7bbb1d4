// Workers at a gate that looks at their table.
ghost use Rattle.atam.specs.Sites.{InBox};
ghost use Rattle.site_table.specs.Seats.{IsSeatOf};

use crate::claims::{BESIDE, split};
use assembly::grid_of_seeds;
use grow_workers::grow_on;
use meeting_gate::MeetingGate;
use site_table::{SiteSeat, SiteTable};
use std::alloc::Global;
use std::sync::Mutex;
use std::sync::atomic::{AtomicU64, Ordering};
use std::test::Fail;
use std::thread::Threads;
use tile_io::Gate;
use tile_system::{NoMemory, Site, System};
use worked_systems::{CHAIN, system};

// How often a worker tries for the seat while another looks.
const MOST_TRIES: u64 = 1_000_000_000;

// A seat that looks at one site of its table.
#[derive(Drop)]
struct Lookout<'a> {
    table: &'a SiteTable,
    seat: SiteSeat,
    site: Site,
    ghost seated: { IsSeatOf table.now seat },
    ghost inside: { InBox table.now.sys.area site },
}

impl<'a> Lookout<'a> {
    fn sees_nothing(&mut self) -> bool {
        self.table.look(&mut self.seat, self.site).is_none()
    }
}

// Looks at the site when a worker comes, counts the looks that find it empty, and then holds the
// worker until the other one has come too.
#[derive(Drop)]
struct LookingGate<'a> {
    lookout: Mutex<Lookout<'a>>,
    meeting: MeetingGate,
    empty_looks: AtomicU64,
}

impl<'a> LookingGate<'a> {
    fn sees_nothing(&self) -> bool {
        for _ in 0..MOST_TRIES {
            if let Some(mut lookout) = self.lookout.try_lock() {
                return lookout.sees_nothing();
            }
        }
        false
    }

    // Whether both workers came, and the site was empty at each look.
    fn saw_nothing_twice(&self) -> bool {
        self.meeting.is_met() && self.empty_looks.load(Ordering::SeqCst) == 2
    }
}

impl<'a> Gate for LookingGate<'a> {
    fn arrive(&self, worker: u32) {
        if self.sees_nothing() {
            let _before = self.empty_looks.fetch_add(1, Ordering::SeqCst);
        }
        self.meeting.arrive(worker);
    }
}

// Whether two workers on a table both come to the gate before any tile stands beside the seed.
fn come_before_claims<R: Threads + Sync>(
    rt: &R,
    alloc: Global,
    sys: &System,
) -> Result<bool, NoMemory> {
    let seeds = grid_of_seeds(alloc, sys)?;
    let (table, seat) = SiteTable::make(alloc, sys)?;
    let (first, second) = split(&table, seat, &seeds);
    let area = sys.area();
    if !area.holds(BESIDE) {
        return Ok(false);
    }
    let gate = LookingGate {
        lookout: Mutex::new(Lookout {
            table: &table,
            seat: second,
            site: BESIDE,
        }),
        meeting: MeetingGate::make(1),
        empty_looks: AtomicU64::new(0),
    };
    let _grown = grow_on(rt, alloc, sys, &table, first, seeds, 2, 0, &gate)?;
    Ok(gate.saw_nothing_twice())
}

#[test]
fn each_worker_comes_before_it_claims(rt: HostRuntime) -> Result<(), Fail> {
    let sys = system(rt.alloc(), CHAIN)?;
    assert!(rt; come_before_claims(&rt, rt.alloc(), &sys)?);
    Ok(())
}
