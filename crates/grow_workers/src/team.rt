// What workers tell each other beside the table. It bears on time alone, so no contract says of it.
use fan_out::WorkerCount;
use std::sync::atomic::{AtomicU16, AtomicU64, Ordering};
use std::{hint, thread};

// A worker ends after so many turns in a row with nothing to do while some have not begun: where no
// thread can be made they begin after its end.
const PATIENCE_AT_START: u32 = 1000;

// Between two such turns it spins so often, and leaves the processor's core to a worker that has
// something to do.
const PAUSE: u32 = 40;

// Sets of workers, with a bit for each, and how many bursts all have done.
#[derive(Drop)]
pub(crate) struct Team {
    all: u16,
    begun: AtomicU16,
    // Those that have ended.
    gone: AtomicU16,
    // Those that have looked since the last burst, and found nothing to do.
    settled: AtomicU16,
    bursts: AtomicU64,
}

impl Team {
    // So many workers, of which none has begun.
    pub(crate) fn of(size: WorkerCount) -> Team {
        let mut all = 0;
        for worker in 0..size.get() {
            all = all | bit_of(worker);
        }
        Team {
            all,
            begun: AtomicU16::new(0),
            gone: AtomicU16::new(0),
            settled: AtomicU16::new(0),
            bursts: AtomicU64::new(0),
        }
    }

    pub(crate) fn begin(&self, worker: u32) {
        self.begun.fetch_or(bit_of(worker), Ordering::SeqCst);
    }

    pub(crate) fn leave(&self, worker: u32) {
        self.gone.fetch_or(bit_of(worker), Ordering::SeqCst);
    }

    // A burst is done, so the others have to look again.
    pub(crate) fn end_burst(&self) {
        self.bursts.fetch_add(1, Ordering::SeqCst);
        self.settled.store(0, Ordering::SeqCst);
    }

    pub(crate) fn bursts(&self) -> u64 {
        self.bursts.load(Ordering::SeqCst)
    }

    // Whether none of those that have begun has anything to do.
    fn rests(&self) -> bool {
        let begun = self.begun.load(Ordering::SeqCst);
        let gone = self.gone.load(Ordering::SeqCst);
        let settled = self.settled.load(Ordering::SeqCst);
        begun == settled | gone
    }

    fn has_begun(&self) -> bool {
        self.begun.load(Ordering::SeqCst) == self.all
    }
}

// The waiting of one worker: for how many turns in a row it had nothing to do, and whether it has
// waited enough.
#[derive(Drop)]
pub(crate) struct Waiting {
    worker: u32,
    turns: u32,
    pub(crate) is_over: bool,
}

impl Waiting {
    pub(crate) fn of(worker: u32) -> Waiting {
        Waiting {
            worker,
            turns: 0,
            is_over: false,
        }
    }

    // There is something to do.
    pub(crate) fn go_on(&mut self, team: &Team) {
        team.settled
            .fetch_and(!bit_of(self.worker), Ordering::SeqCst);
        self.turns = 0;
    }

    // One turn in which nothing was found, when all had done so many bursts before, and a pause.
    pub(crate) fn wait(&mut self, team: &Team, bursts: u64) {
        if team.bursts() == bursts {
            team.settled.fetch_or(bit_of(self.worker), Ordering::SeqCst);
        }
        self.turns = self.turns.saturating_add(1);
        self.is_over = team.rests() && (team.has_begun() || self.turns >= PATIENCE_AT_START);
        for _ in 0..PAUSE {
            hint::spin_loop();
        }
        thread::yield_now();
    }
}

// There are at most 16 workers.
fn bit_of(worker: u32) -> u16 {
    1 << (worker % 16)
}
