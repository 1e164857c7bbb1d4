// Laws of what commands answer, each as the contract of a function that does nothing.
ghost use Rattle.tilebench.specs.Laws.{WatchAnswersAsGrow, WatchPrintsAsGrow};

/// Without its frames and the line `grown`, what `watch` prints is what `grow` prints of the same
/// tiles; and wherever a verdict is yes or names the third condition, it is the same bytes.
pub fn law_watch()
    ensures answers { WatchAnswersAsGrow }
    ensures bytes { WatchPrintsAsGrow }
{}
