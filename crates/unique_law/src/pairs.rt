// Laws over two sequences of one system.
ghost use Rattle.std.specs.Prelude.{◌↔◌};
ghost use Rattle.atam.specs.Placements.{SamePlacements};
ghost use Rattle.atam.specs.Growth.{IsLegal};
ghost use Rattle.atam.specs.Determinism.{IsLocallyDeterministic};
ghost use Rattle.unique_law.specs.Matches.{IsMatchedIn};

use assembly::Sequence;
use tile_system::System;

/// Each place of `b` is a place of `a`, with the same input sides. It takes no memory and no time.
pub fn law_part(sys: &System, a: &Sequence, b: &Sequence)
    requires deterministic { IsLocallyDeterministic sys.now a.now }
    requires legal { IsLegal sys.now b.now }
    ensures { IsMatchedIn sys.now a.now b.now }
{
    // The seeds of a system have distinct sites.
    sys.recall_valid();
}

/// `a` is locally deterministic exactly where `b` is. It takes no memory and no time.
pub fn law_same_verdict(sys: &System, a: &Sequence, b: &Sequence)
    requires first { IsLegal sys.now a.now }
    requires second { IsLegal sys.now b.now }
    requires same { SamePlacements a.now b.now }
    ensures { IsLocallyDeterministic sys.now a.now ↔ IsLocallyDeterministic sys.now b.now }
{
    // The seeds of a system have distinct sites.
    sys.recall_valid();
}
