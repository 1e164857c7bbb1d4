// Laws of the tiles of a machine, each as the contract of a function that does nothing.
ghost use Rattle.turing_compile.specs.Laws.{PlacesShowTheRun, FullGrowthsShowTheRun, FullGrowthsReadBack, StoppedRunsAreDeterministic, CompiledSystemsAreValid, CompiledSystemsAreSmall};

/// Whatever a legal sequence places shows a cell of the machine's run; a producible assembly that
/// nothing extends in the box shows the run row by row; and where the machine stops within the rows,
/// nothing else grows.
pub fn law_run()
    ensures places { PlacesShowTheRun }
    ensures rows { FullGrowthsShowTheRun }
    ensures read_back { FullGrowthsReadBack }
    ensures deterministic { StoppedRunsAreDeterministic }
{}

/// The system of every machine is within all limits, and below those of glues and of types.
pub fn law_valid()
    ensures limits { CompiledSystemsAreValid }
    ensures small { CompiledSystemsAreSmall }
{}
