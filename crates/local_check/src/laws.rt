// Laws of the verdict, each as the contract of a function that does nothing.
ghost use Rattle.local_check.specs.Laws.{HasVerdict, HasOneVerdict, HasNoRivalsWhereClean, IsYesWhereDeterministic};

/// A legal sequence has exactly one verdict.
pub fn law_one_verdict()
    ensures exists { HasVerdict }
    ensures unique { HasOneVerdict }
{}

/// The verdict is `Yes` exactly where the sequence is locally deterministic.
pub fn law_yes()
    ensures { IsYesWhereDeterministic }
{}

/// Where each place of a legal sequence came clean, none has a rival.
pub fn law_clean()
    ensures { HasNoRivalsWhereClean }
{}
