// Why a counter is refused.

/// Why a counter is refused.
#[derive(Debug, Clone, Copy, PartialEq, Eq)]
pub enum CounterStop {
    BitsOutOfRange,
    StartTooLarge,
    TooTall,
    NoMemory,
}

impl From<tile_system::NoMemory> for CounterStop {
    ghost use Rattle.std.specs.Prelude.{◌≡◌};
    ghost use Rattle.counter_compile.specs.declared.stop.CounterStop.TheVariants.{NoMemory as OutOfMemory};

    ghost from_gives = { λ _ stop. stop ≡ OutOfMemory };

    fn from(_: tile_system::NoMemory) -> CounterStop {
        CounterStop::NoMemory
    }
}
