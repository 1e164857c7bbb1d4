// Laws of the table, each as the contract of a function that does nothing.
ghost use Rattle.site_table.specs.Laws.{OpeningIsStart, ClaimIsOneEvent, LookIsOneEvent, SplitIsOneEvent, JoinIsOneEvent, SecondLoadIsNoEvent, QuietIsFinal};

/// The table starts as the core does, and each of its steps is one event of the core.
pub fn law_steps()
    ensures start { OpeningIsStart }
    ensures claim { ClaimIsOneEvent }
    ensures look { LookIsOneEvent }
    ensures split { SplitIsOneEvent }
    ensures join { JoinIsOneEvent }
    ensures second_load { SecondLoadIsNoEvent }
{}

/// Growth is over where one seat has seen a closed assembly.
pub fn law_quiet()
    ensures { QuietIsFinal }
{}
