// The answer of the check.
ghost use Rattle.std.specs.Prelude.{◌≡◌};
ghost use Rattle.cert_check.specs.Judgement.{first_fault};

use tile_system::{Side, Site, TypeId};

/// Whether a certificate is good, or the first check that fails: a seed that is no entry's place;
/// sides stated at a seed's place; a stated side that nothing of lesser rank holds; stated bonds
/// that don't add up to the temperature (their sum); an unstated bond that isn't answered; another
/// type that could stand there; and a type that attaches beside the entry, at the site that is
/// given.
#[derive(Clone, Copy, Debug, PartialEq, Eq)]
pub enum CertVerdict {
    Yes,
    NoSeed(Site),
    SeedSides(Site),
    BadInput(Site),
    NotExact(Site, u32),
    LooseBond(Site, Side),
    Rival(Site, TypeId),
    NotTerminal(Site, TypeId),
}

impl CertVerdict {
    // That of some entries, or else that of those behind them.
    pub(crate) fn or(self, behind: CertVerdict) -> CertVerdict
        ensures { result ≡ first_fault self behind }
    {
        match self {
            CertVerdict::Yes => behind,
            fault => fault,
        }
    }
}
