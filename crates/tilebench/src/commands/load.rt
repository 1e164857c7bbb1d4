// `load`: a counter made from a number, and the summary of what it grows into.
ghost use Rattle.std.specs.Thread.{IsSync};
ghost use Rattle.tilebench.specs.Inner.Gives.{GivesAnswer};
ghost use Rattle.tilebench.specs.Inner.Runs.{EndsCommand};
ghost use Rattle.std.specs.Prelude.{◌≡◌, ◌+◌, ◌/◌, ◌%◌, ◌≤◌, ◌^◌, min, [], ◌∷◌, ◌++◌, codes, decimal};
ghost use Rattle.std.specs.Prelude.{None, IfOk};
ghost use Rattle.tile_io.specs.Prints.{Prints};
ghost use Rattle.counter_compile.specs.Counters.{counter_refusal, counter_system};
ghost use Rattle.seq_text.specs.GrowthLines.{closed_line};
ghost use Rattle.seq_text.specs.VerdictLines.{verdict_line};
ghost use Rattle.tilebench.specs.Commands.Load.{load_bits, load_start};
ghost use Rattle.tilebench.specs.Inner.Loads.{load_text};
ghost use Rattle.job_board.specs.AnswerText.{is_unique};
ghost use Rattle.tilebench.specs.Inner.Rooms.{HasTypes, outcome_of};
ghost use Rattle.tilebench.specs.Inner.CommandRows.{load_row};
ghost use Rattle.tile_io.specs.Lines.{line_of};

use crate::growth::{Growth, growth_of};
use crate::judged::grow_judged;
use crate::resources::Resources;
use crate::room::{Reply, Room};
use crate::run::run_by;
use crate::status::Ran;
use crate::stop::Stop;
use command_line::Crew;
use counter_compile::{CounterStop, compile_counter};
use fan_out::WorkerCount;
use itoa::Buffer;
use job_board::is_unique;
use seq_text::{print_closed, print_verdict};
use site_table::Grown;
use std::alloc::Global;
use std::thread::Threads;
use tile_io::{Failed, Gate, Sink, Source, print_line};
use tile_system::{NoMemory, System};

// By how many workers the counter is grown.
const WORKERS: u32 = 4;

/// The command.
#[derive(Clone, Copy)]
pub struct Load {
    pub number: u64,
}

impl Room for Load {
    type Answer = Loaded;

    ghost room_row = { λ room. load_row room.number };

    fn reads_input(&self) -> bool {
        false
    }

    ghost one_of_two = { λ room input fault takes fails. fails };
}

impl Load {
    /// Runs the command.
    pub fn run<R: Threads + Sync, G: Gate, S: Source, K: Sink, E: Sink>(
        &self,
        resources: &Resources<'_, R, G>,
        source: &mut S,
        out: &mut K,
        err: &mut E,
    ) -> Ran
        ensures { EndsCommand S.left S.faults K.written K.faults E.written E.faults
            (load_row self.now.number)
            source.old source.new out.old out.new err.old err.new result }
    {
        let answer = |input: Vec<u8>|
            requires { IsSync R.row × IsSync G.row }
        { self.answer(resources, input) };
        run_by(resources.alloc, self, answer, source, out, err)
    }

    // Its answer to an input, with the growth that is to be handed out.
    fn answer<R: Threads + Sync, G: Gate>(
        &self,
        resources: &Resources<'_, R, G>,
        _input: Vec<u8>,
    ) -> Result<(Loaded, Option<Grown>), Stop>
        ensures { GivesAnswer
            ⟦<Loaded as Reply>⟧.yes ⟦<Loaded as Reply>⟧.text ⟦<Loaded as Reply>⟧.printable
            (load_row self.now.number) _input.items result }
    {
        let counter = counter_of(self.number);
        let sys = system_of(resources.alloc, counter)?;
        let crew = Crew {
            workers: WorkerCount::new(WORKERS),
            choice: self.number,
        };
        let (grown, judged) = grow_judged(resources, &sys, crew)?;
        let growth = growth_of(sys, grown.grid(), judged);
        let loaded = Loaded {
            number: self.number,
            counter,
            tiles: grown.grid().count(),
            growth,
        };
        Ok((loaded, Some(grown)))
    }
}

/// A counter of so many bits, from a number on.
#[derive(Clone, Copy, Debug, PartialEq, Eq)]
pub struct Counter {
    pub bits: u32,
    pub start: u64,
}

/// The counter of a number, and what it grew into.
pub struct Loaded {
    pub number: u64,
    pub counter: Counter,
    pub tiles: u32,
    pub growth: Growth,
}

impl Drop for Loaded {
    fn drop(self) {
        let Loaded {
            number: _number,
            counter: _counter,
            tiles: _tiles,
            growth: _growth,
        } = self;
    }
}

impl Reply for Loaded {
    ghost text = { λ loaded. load_text loaded.number
        loaded.counter.bits loaded.counter.start loaded.tiles
        loaded.growth.sys loaded.growth.outside loaded.growth.verdict };

    ghost yes = { λ loaded. is_unique loaded.growth.verdict };

    ghost printable = { λ loaded. HasTypes loaded.growth.sys (outcome_of loaded.growth) };

    fn is_yes(&self) -> bool {
        is_unique(self.growth.verdict)
    }

    fn print<K: Sink>(&self, out: &mut K) -> Result<(), Failed> {
        print_sizes(self.number, self.counter, self.tiles, out)?;
        print_end(&self.growth, out)
    }
}

// The counter of a number: 2 to 32 bits, and at most 512 numbers to count.
fn counter_of(number: u64) -> Counter
    ensures bits { result.bits ≡ load_bits number }
    ensures start { result.start ≡ load_start number }
{
    let bits = 2 + (number % 31) as u32;
    let last = (1 << bits) - 1;
    Counter {
        bits,
        start: last - numbers_after_start(number, last),
    }
}

// How many numbers come after the start, where the last one is this.
fn numbers_after_start(number: u64, last: u64) -> u64
    requires { last + 1 ≡ 2 ^ load_bits number }
    ensures value { result ≡ number / 31 % min (2 ^ load_bits number) 512 }
    ensures most { result ≤ last }
{
    if last < 511 {
        number / 31 % (last + 1)
    } else {
        number / 31 % 512
    }
}

// The system of a counter that is not refused.
fn system_of(alloc: Global, counter: Counter) -> Result<System, NoMemory>
    requires { counter_refusal counter.bits counter.start ≡ None }
    ensures { IfOk result (λ sys. sys ≡ counter_system counter.bits counter.start) }
{
    match compile_counter(alloc, counter.bits, counter.start) {
        Ok(sys) => Ok(sys),
        Err(CounterStop::NoMemory) => Err(NoMemory),
        Err(CounterStop::BitsOutOfRange) => unreachable!(),
        Err(CounterStop::StartTooLarge) => unreachable!(),
        Err(CounterStop::TooTall) => unreachable!(),
    }
}

// Writes which counter was grown, and how many tiles stand.
fn print_sizes<K: Sink>(
    number: u64,
    counter: Counter,
    tiles: u32,
    out: &mut K,
) -> Result<(), Failed>
    ensures { Prints K.written K.faults out.old out.new result
        (line_of (codes "load" ∷ decimal number ∷ codes "bits" ∷ decimal counter.bits
        ∷ codes "start" ∷ decimal counter.start ∷ [])
        ++ line_of (codes "tiles" ∷ decimal tiles ∷ [])) }
{
    print_counter(number, counter, out)?;
    print_tiles(tiles, out)
}

fn print_counter<K: Sink>(number: u64, counter: Counter, out: &mut K) -> Result<(), Failed>
    ensures { Prints K.written K.faults out.old out.new result
        (line_of (codes "load" ∷ decimal number ∷ codes "bits" ∷ decimal counter.bits
        ∷ codes "start" ∷ decimal counter.start ∷ [])) }
{
    let mut number_digits = Buffer::new();
    let mut bits_digits = Buffer::new();
    let mut start_digits = Buffer::new();
    let number = number_digits.format(number).as_bytes();
    let bits = bits_digits.format(counter.bits).as_bytes();
    let start = start_digits.format(counter.start).as_bytes();
    print_line(out, b"load", &[number, b"bits", bits, b"start", start])
}

fn print_tiles<K: Sink>(tiles: u32, out: &mut K) -> Result<(), Failed>
    ensures { Prints K.written K.faults out.old out.new result
        (line_of (codes "tiles" ∷ decimal tiles ∷ [])) }
{
    let mut digits = Buffer::new();
    print_line(out, b"tiles", &[digits.format(tiles).as_bytes()])
}

// Writes what is open outside the box, and the verdict.
fn print_end<K: Sink>(growth: &Growth, out: &mut K) -> Result<(), Failed>
    requires { HasTypes growth.now.sys (outcome_of growth.now) }
    ensures { Prints K.written K.faults out.old out.new result
        (closed_line growth.now.sys growth.now.outside
        ++ verdict_line growth.now.sys growth.now.verdict) }
{
    print_closed(&growth.sys, growth.outside, out)?;
    print_verdict(&growth.sys, &growth.verdict, out)
}
