// Laws of the counter's system, as the contract of a function that does nothing.
ghost use Rattle.counter_compile.specs.Counters.{CountersAreDeterministic, CountersAreSmall, RowsCount};

/// Only one assembly can grow from a counter's system, and a producible one that is closed in its box
/// has counted to the end.
pub fn law_counter()
    ensures small { CountersAreSmall }
    ensures deterministic { CountersAreDeterministic }
    ensures rows { RowsCount }
{}
