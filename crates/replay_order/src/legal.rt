// Whether a sequence is legal.
ghost use Rattle.std.specs.Prelude.{◌≡◌, ◌<◌, ◌^◌, ◌↔◌, [], length, take, IsTrue};
ghost use Rattle.atam.specs.Placements.{SamePlacements};
ghost use Rattle.atam.specs.Assembly.{Fits};
ghost use Rattle.atam.specs.Growth.{IsLegal};
ghost use Rattle.replay_order.specs.Legalities.{IsLegalityAnswer, legal_part};

use assembly::{Grid, Sequence, put_seeds, site_index};
use atam::Legality;
use attach_rule::{facing_pull, glues_beside};
use tile_system::System;

/// Puts the places of the sequence into an empty grid, as long as they are legal. A place at a
/// taken site is reported as such, however weak its pull is.
/// It takes no memory, and looks at each place once.
pub fn check_legal(sys: &System, seq: &Sequence, scratch: &mut Grid) -> Legality
    requires area { scratch.old.area ≡ sys.now.area }
    requires empty { scratch.old.tiles ≡ [] }
    requires fits { Fits sys.now seq.now }
    requires short { length seq.now < 2 ^ 32 }
    ensures answer { IsLegalityAnswer sys.now seq.now result }
    ensures legal { (result ≡ Legality.Legal) ↔ IsLegal sys.now seq.now }
    ensures area { scratch.new.area ≡ scratch.old.area }
    ensures placements { SamePlacements (legal_part seq.now result) scratch.new.tiles }
{
    let tau = sys.tau();
    if !begins_with_seeds(sys, seq) {
        return Legality::WrongSeed;
    }
    put_seeds(sys, scratch);
    for index in sys.seeds().len() as u32..seq.len() as u32 {
        let place = seq.get(index as usize);
        let number = site_index(&scratch.area(), place.site);
        if scratch.tile(number).is_some() {
            return Legality::SiteTaken { index };
        }
        let beside = scratch.beside_at(place.site, number);
        let glues = glues_beside(sys, scratch, place.site, &beside);
        let pull = facing_pull(sys, &glues, place.tile);
        if pull < tau {
            return Legality::TooWeak { index, pull };
        }
        scratch.put_at(place, number);
    }
    Legality::Legal
}

// Whether the sequence begins with the seeds in their order.
fn begins_with_seeds(sys: &System, seq: &Sequence) -> bool
    ensures { IsTrue result ↔ (take (length sys.now.seeds) seq.now ≡ sys.now.seeds) }
{
    seq.starts_with(sys.seeds())
}
