// Laws of the numbers of a box's sites, as the contract of a function that does nothing.
ghost use Rattle.assembly.specs.Laws.{EachSiteIsNumbered, EachSiteHasOneNumber, EachNumberIsOfSite, NumbersFollowSites, HasFewSites};

/// The numbers below the count go through the sites of a box, each once, in their order.
pub fn law_numbers()
    ensures each { EachSiteIsNumbered }
    ensures one { EachSiteHasOneNumber }
    ensures inside { EachNumberIsOfSite }
    ensures order { NumbersFollowSites }
    ensures few { HasFewSites }
{}
