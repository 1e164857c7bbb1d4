// Boards and tickets.
ghost use Rattle.std.specs.Prelude.{◌≡◌, length};

use job_board::{Board, Job, Move, Outcome, PutStop, same_job};
use std::alloc::Global;
use std::process::Abort;
use std::test::Fail;
use std::thread::Threads;
use worked_systems::{CHAIN, SINGLE, system};

// The moves of a job that worker 3 took and gave.
const MOVES: [Move; 2] = [
    Move {
        worker: 3,
        job: 0,
        gave: false,
    },
    Move {
        worker: 3,
        job: 0,
        gave: true,
    },
];

// The job of one board goes out to worker 3, who tries to put it on another.
fn put_on_two<'a, R: Threads + Sync + Abort>(
    rt: &R,
    alloc: Global,
    mine: &'a [Job],
    others: &'a [Job],
) -> Result<(), Fail>
    requires mine { length mine.now ≡ 1 }
    requires others { length others.now ≡ 1 }
{
    let mut board = Board::make(alloc, mine)?;
    let Some(ticket) = board.take(3) else {
        return Err("no ticket").map_err(Fail::from);
    };
    assert_eq!(rt; (ticket.job(), ticket.worker()), (0, 3));
    assert!(rt; board.take(3).is_none());
    let outcome = Outcome::work(rt, alloc, ticket.given())?;
    let mut other = Board::make(alloc, others)?;
    let Err((stop, ticket, outcome)) = other.put(ticket, outcome) else {
        return Err("taken").map_err(Fail::from);
    };
    assert_eq!(rt; stop, PutStop::NotOut);
    assert!(rt; other.take(3).is_some());
    let Err((stop, ticket, outcome)) = other.put(ticket, outcome) else {
        return Err("taken").map_err(Fail::from);
    };
    assert_eq!(rt; stop, PutStop::OtherJob);
    assert!(rt; board.put(ticket, outcome).is_ok());
    assert_eq!(rt; board.journal(), MOVES.as_slice());
    Ok(())
}

#[test]
fn a_ticket_goes_to_its_own_board(rt: HostRuntime) -> Result<(), Fail> {
    let alloc = rt.alloc();
    let mut mine = Vec::new(alloc);
    mine.push(Job {
        sys: system(alloc, SINGLE)?,
        choice: 0,
    })?;
    let mut others = Vec::new(alloc);
    others.push(Job {
        sys: system(alloc, CHAIN)?,
        choice: 0,
    })?;
    if mine.len() != 1 || others.len() != 1 {
        return Err("no jobs").map_err(Fail::from);
    }
    assert!(rt; same_job(&mine[0], &mine[0]) && !same_job(&mine[0], &others[0]));
    put_on_two(&rt, alloc, mine.as_slice(), others.as_slice())
}
