// Laws of how a sequence goes on over tiles, and of frames, each as the contract of a function that
// does nothing.
ghost use Rattle.watch_frames.specs.Laws.{FramesAreLegal, FramesNeverShrink, LastFrameHasAll, HasExtension, HasOneExtension, SharesExtension, ExtendsLegally, ExtendsSeedsCanonically, ExtendsOverItself, ExtendsToGreatest, ExtendsToCanonical, GoesOnOverMore};

/// A sequence goes on over tiles that it lists some of in exactly one way; from the seeds on that
/// is the canonical order.
pub fn law_extension()
    ensures exists { HasExtension }
    ensures unique { HasOneExtension }
    ensures same { SharesExtension }
    ensures canonical { ExtendsSeedsCanonically }
    ensures itself { ExtendsOverItself }
{}

/// A legal sequence goes on legally, to the greatest producible part of the tiles, and over more
/// tiles behind that.
pub fn law_extension_grows()
    ensures legal { ExtendsLegally }
    ensures greatest { ExtendsToGreatest }
    ensures placements { ExtendsToCanonical }
    ensures more { GoesOnOverMore }
{}

/// Each frame is legal and begins the next one, and the last one has all places.
pub fn law_frames()
    ensures legal { FramesAreLegal }
    ensures rise { FramesNeverShrink }
    ensures last { LastFrameHasAll }
{}
