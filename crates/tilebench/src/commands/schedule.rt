// `schedule`: steps of several scouts, run on a growth core.
ghost use Rattle.tile_text.specs.SystemText.{ReadsAny, FaultAny};
ghost use Rattle.std.specs.Prelude.{◌≡◌, ◌≤◌, length, IfOk, All, ◌++◌, is_ok};
ghost use Rattle.tile_io.specs.declared.limits.TheConstants.{MOST_INPUT};
ghost use Rattle.grow_core.specs.Core.{CoreInvariant};
ghost use Rattle.grow_core.specs.Steps.{CoreStep};
ghost use Rattle.seq_text.specs.ScheduleText.{schedule_format, ReadsEvents};
ghost use Rattle.seq_text.specs.SeenLines.{HasLine, seen_lines};
ghost use Rattle.tilebench.specs.Inner.Gives.{Gives};
ghost use Rattle.tilebench.specs.Inputs.{FailsWithin};
ghost use Rattle.tilebench.specs.Inner.Schedules.{IsRunOf};
ghost use Rattle.tilebench.specs.Inputs.{IsSystemThen};
ghost use Rattle.tilebench.specs.Inner.CommandRows.{schedule_row};
ghost use Rattle.tilebench.specs.Inner.Rooms.{HasLines, Schedules, replies_of};
ghost use Rattle.tilebench.specs.Inner.Readings.{taken_or_faulty};
ghost use Rattle.seq_text.specs.GrowthLines.{place_lines};
ghost use Rattle.std.specs.List.{list_all};

use crate::input::read_front;
use crate::resources::Resources;
use crate::room::{PlainRoom, Reply, Room};
use crate::stop::Stop;
use assembly::Sequence;
use atam::{CoreStop, Event, Seen};
use grow_core::Core;
use replay_order::replay_producible;
use seq_text::{print_places, print_replies, read_events};
use site_table::Grown;
use std::alloc::Global;
use std::thread::Threads;
use tile_io::{Failed, Gate, Sink};
use tile_system::{NoMemory, System};

/// The command.
#[derive(Clone, Copy)]
pub struct Schedule;

impl Room for Schedule {
    type Answer = Scheduled;

    ghost room_row = { λ room. schedule_row };

    fn reads_input(&self) -> bool {
        true
    }

    ghost one_of_two = { λ room. taken_or_faulty schedule_format };
}

impl PlainRoom for Schedule {
    fn answer<R: Threads + Sync, G: Gate>(
        &self,
        resources: &Resources<'_, R, G>,
        input: Vec<u8>,
    ) -> Result<(Scheduled, Option<Grown>), Stop> {
        let (sys, events) = system_and_events(resources.alloc, &input)?;
        Ok((schedule_of(resources.alloc, sys, &events)?, None))
    }
}

/// What the events of a schedule were answered, and the tiles that came of them in canonical order.
pub struct Scheduled {
    pub sys: System,
    pub replies: Vec<Result<Seen, CoreStop>>,
    pub order: Sequence,
}

impl Drop for Scheduled {
    fn drop(self) {
        let Scheduled {
            sys: _sys,
            replies: _replies,
            order: _order,
        } = self;
    }
}

impl Reply for Scheduled {
    ghost text = { λ scheduled. seen_lines scheduled.sys scheduled.replies.items
        ++ place_lines scheduled.sys scheduled.order };

    ghost yes = { λ scheduled. list_all is_ok scheduled.replies.items };

    ghost printable = { λ scheduled. HasLines scheduled.sys (replies_of scheduled) };

    fn is_yes(&self) -> bool {
        self.replies.iter().all(|reply| reply.is_ok())
    }

    fn print<K: Sink>(&self, out: &mut K) -> Result<(), Failed> {
        print_replies(&self.sys, &self.replies, out)?;
        print_places(&self.sys, &self.order, out)
    }
}

// The system and the events whose texts the input is.
fn system_and_events(alloc: Global, input: &[u8]) -> Result<(System, Vec<Event>), Stop>
    requires { length input.now ≤ MOST_INPUT }
    ensures { Gives (λ found. IsSystemThen ReadsEvents input.now found.0 found.1.items)
        (FailsWithin ReadsAny FaultAny schedule_format input.now) result }
{
    let (sys, end) = read_front(alloc, input)?;
    let events = read_events(alloc, &sys, input, end)?;
    Ok((sys, events))
}

// Runs a schedule on a core of its own.
fn schedule_of(alloc: Global, sys: System, events: &[Event]) -> Result<Scheduled, NoMemory>
    ensures { IfOk result (Schedules sys events.now) }
{
    let mut core = Core::make(alloc, &sys)?;
    let replies = core_replies(alloc, &sys, &mut core, events)?;
    let order = replay_producible(alloc, &sys, core.grid())?;
    Ok(Scheduled {
        sys,
        replies,
        order,
    })
}

// The replies to the events, one after another.
fn core_replies(
    alloc: Global,
    sys: &System,
    core: &mut Core,
    events: &[Event],
) -> Result<Vec<Result<Seen, CoreStop>>, NoMemory>
    requires area { core.old.area ≡ sys.now.area }
    requires invariant { CoreInvariant sys.now core.old.state }
    ensures area { core.new.area ≡ sys.now.area }
    ensures invariant { CoreInvariant sys.now core.new.state }
    ensures run { IfOk result (λ replies.
        IsRunOf sys.now core.old.state events.now replies.items core.new.state) }
    ensures told { IfOk result (λ replies. All (HasLine sys.now) replies.items) }
{
    let mut replies = Vec::with_capacity(alloc, events.len())?;
    for event in events {
        replies.push(reply_to(sys, core, *event)?)?;
    }
    Ok(replies)
}

// The reply to an event, but for want of memory.
#[tactic(auto, using(crate::proofs::Scheduling::has_line))]
fn reply_to(sys: &System, core: &mut Core, event: Event) -> Result<Result<Seen, CoreStop>, NoMemory>
    requires area { core.old.area ≡ sys.now.area }
    requires invariant { CoreInvariant sys.now core.old.state }
    ensures area { core.new.area ≡ sys.now.area }
    ensures invariant { CoreInvariant sys.now core.new.state }
    ensures step { IfOk result (λ reply.
        CoreStep sys.now core.old.state event reply core.new.state) }
    ensures told { IfOk result (HasLine sys.now) }
{
    match core.step(sys, event) {
        Ok(seen) => Ok(Ok(seen)),
        Err(CoreStop::NoMemory) => Err(NoMemory),
        Err(stop) => Ok(Err(stop)),
    }
}
