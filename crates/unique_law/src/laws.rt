// Laws over all lists of placements, at whatever sites, each as the contract of a function that
// does nothing.
ghost use Rattle.unique_law.specs.Laws.{HasNoOtherPlaces, GrowsIntoDeterministic, DeterministicIsFullGrowth, HasOneFullGrowth, HasOutcome, HasOutcomeByPlacements, HasOneOutcome, IsYesThroughout, GrowsIntoOutcome, HasVerdictByPlacements, IsYesWhereSomeOrderIs};
ghost use Rattle.unique_law.specs.WithinLaws.{DeterministicIsWithin, HasNoOtherPlacesWithin, GrowsIntoWithin, WithinIsFullGrowth, HasOneFullGrowthWithin, HasOneOutcomeWithin, GrowsIntoOutcomeWithin, IsWithinWhereItsOrderIs, IsWithinWhereSomeOrderIs, IsWithinThroughout, NamesSiteOutside, HasConditionsByPlacements};

/// Each legal sequence has places of a locally deterministic one alone, and grows into it.
pub fn law_confluence()
    ensures part { HasNoOtherPlaces }
    ensures grows { GrowsIntoDeterministic }
{}

/// A producible assembly that is closed in the box is the only one where some sequence in the box
/// is locally deterministic, and all that is told of it is the same each time.
pub fn law_one_outcome()
    ensures itself { DeterministicIsFullGrowth }
    ensures placements { HasOneFullGrowth }
    ensures exists { HasOutcome }
    ensures outcome { HasOutcomeByPlacements }
    ensures yes { HasOneOutcome }
    ensures throughout { IsYesThroughout }
    ensures grows { GrowsIntoOutcome }
{}

/// Whether the sequence is locally deterministic does not depend on the order of its places.
pub fn law_verdict()
    ensures placements { HasVerdictByPlacements }
    ensures yes { IsYesWhereSomeOrderIs }
{}

/// Each legal sequence in the box has places alone of one that is deterministic within it, and grows
/// into it, so a system that has such a one has one outcome. Nothing is said of sequences that leave
/// the box, which may come back.
pub fn law_within()
    ensures deterministic { DeterministicIsWithin }
    ensures part { HasNoOtherPlacesWithin }
    ensures grows { GrowsIntoWithin }
    ensures itself { WithinIsFullGrowth }
    ensures placements { HasOneFullGrowthWithin }
    ensures outcome { HasOneOutcomeWithin }
    ensures grows_into_outcome { GrowsIntoOutcomeWithin }
    ensures its_order { IsWithinWhereItsOrderIs }
    ensures some_order { IsWithinWhereSomeOrderIs }
    ensures throughout { IsWithinThroughout }
    ensures outside { NamesSiteOutside }
    ensures conditions { HasConditionsByPlacements }
{}
