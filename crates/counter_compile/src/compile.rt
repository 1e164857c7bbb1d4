// A counter becomes a system.
ghost use Rattle.std.specs.Prelude.{◌≡◌, IfOk, OnOk};
ghost use Rattle.atam.specs.Sites.{InBox, IsBox};
ghost use Rattle.design.specs.TileSets.{cell_site};
ghost use Rattle.counter_compile.specs.Inner.Accepted.{IsAccepted};
ghost use Rattle.counter_compile.specs.Counters.{counter_box, counter_refusal, counter_system, refusal_of};

use crate::CounterStop;
use crate::counter::Counter;
use crate::kind::Kind;
use crate::label::Label;
use atam::BoxArea;
use std::alloc::Global;
use tile_system::System;
use tile_table::{ListedTiles, build_system};

/// The bits of a counter, from the one to the other.
pub const LEAST_BITS: u32 = 2;

pub const MOST_BITS: u32 = 32;

/// The rows of a counter.
pub const MOST_ROWS: u64 = 1024;

/// The tile set of a counter, seen as the system that `compile_counter` gives.
pub type CounterTiles = ListedTiles<Kind, Label, Counter>;

// The seed is the west end of the first row.
const SEED: Kind = Kind::First(0);

/// The system that counts from a number to the last one of so many bits, and then shows 0.
pub fn compile_counter(alloc: Global, bits: u32, start: u64) -> Result<System, CounterStop>
    ensures refusal { refusal_of result ≡ counter_refusal bits start }
    ensures system { IfOk result (λ system. system ≡ counter_system bits start) }
{
    check_counter(bits, start)?;
    let counter = Counter {
        last: bits - 1,
        start,
    };
    let labels = counter.labels(alloc)?;
    let kinds = counter.kinds(alloc)?;
    let system = build_system(
        alloc,
        &counter,
        labels.as_slice(),
        kinds.as_slice(),
        SEED,
        box_of(bits, start),
    )?;
    Ok(system)
}

/// Lists the tiles of the counter that counts from a number to the last one of so many bits, to be
/// printed.
pub fn counter_tiles(alloc: Global, bits: u32, start: u64) -> Result<CounterTiles, CounterStop>
    ensures refusal { refusal_of result ≡ counter_refusal bits start }
    ensures system { IfOk result (λ tiles. tiles ≡ counter_system bits start) }
{
    check_counter(bits, start)?;
    let counter = Counter {
        last: bits - 1,
        start,
    };
    let labels = counter.labels(alloc)?;
    let kinds = counter.kinds(alloc)?;
    let area = box_of(bits, start);
    Ok(ListedTiles::new(counter, labels, kinds, SEED, area))
}

// Tries each reason to refuse a counter.
#[tactic(auto, using(crate::proofs::Limits::accepted), unfolding(crate::specs::Counters::counter_refusal))]
fn check_counter(bits: u32, start: u64) -> Result<(), CounterStop>
    ensures refusal { refusal_of result ≡ counter_refusal bits start }
    ensures accepted { OnOk result (IsAccepted bits start) }
{
    if bits < LEAST_BITS || bits > MOST_BITS {
        return Err(CounterStop::BitsOutOfRange);
    }
    if start >= 1 << bits {
        return Err(CounterStop::StartTooLarge);
    }
    if 2 * ((1 << bits) - start) > MOST_ROWS {
        return Err(CounterStop::TooTall);
    }
    Ok(())
}

// The box of a counter.
fn box_of(bits: u32, start: u64) -> BoxArea
    requires { IsAccepted bits start }
    ensures value { result ≡ counter_box bits start }
    ensures limits { IsBox result }
    ensures seed { InBox result (cell_site 0 0) }
{
    BoxArea {
        x0: 0,
        y0: 0,
        x1: bits as i32 - 1,
        y1: (2 * ((1 << bits) - start)) as i32 - 1,
    }
}
