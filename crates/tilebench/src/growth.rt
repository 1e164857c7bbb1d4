// What a system grew into, as an answer: its tiles, what is open outside its box, and the verdict.
ghost use Rattle.std.specs.Prelude.{◌≡◌};
ghost use Rattle.atam.specs.Growth.{IsClosedInBox, IsProducible};
ghost use Rattle.job_board.specs.AnswerText.{growth_text, is_unique};
ghost use Rattle.tilebench.specs.Inner.Rooms.{GrowsTo, HasTypes, IsJudgedGrowth, outcome_of};

use crate::judged::JudgedGrowth;
use crate::room::Reply;
use assembly::{Grid, Sequence};
use atam::Verdict;
use job_board::is_unique;
use seq_text::{PlacePieces, put_closed, put_places, put_verdict};
use tile_io::{Chunk, Failed, Sink};
use tile_system::{Site, System, TypeId};

/// What a system grew into: its tiles in canonical order, what is open outside its box, and the
/// verdict on this order.
pub struct Growth {
    pub sys: System,
    pub order: Sequence,
    pub outside: Option<(Site, TypeId)>,
    pub verdict: Verdict,
}

impl Drop for Growth {
    fn drop(self) {
        let Growth {
            sys: _sys,
            order: _order,
            outside: _outside,
            verdict: _verdict,
        } = self;
    }
}

impl Reply for Growth {
    ghost text = { λ growth. growth_text growth.sys (outcome_of growth) };

    ghost yes = { λ growth. is_unique growth.verdict };

    ghost printable = { λ growth. HasTypes growth.sys (outcome_of growth) };

    fn is_yes(&self) -> bool {
        is_unique(self.verdict)
    }

    fn print<K: Sink>(&self, out: &mut K) -> Result<(), Failed> {
        let mut pieces = PlacePieces::new(&self.sys);
        let mut chunk = Chunk::new();
        put_places(&self.order, &mut pieces, &mut chunk, out)?;
        put_closed(&self.sys, self.outside, &mut chunk, out)?;
        put_verdict(&self.sys, &self.verdict, &mut chunk, out)?;
        chunk.flush(out)
    }
}

/// What a system grew into, by the grid of a full growth and the verdict on it.
pub fn growth_of(sys: System, grid: &Grid, judged: JudgedGrowth) -> Growth
    requires area { grid.now.area ≡ sys.area }
    requires producible { IsProducible sys grid.now.tiles }
    requires closed { IsClosedInBox sys grid.now.tiles }
    requires judged { IsJudgedGrowth sys grid.now.tiles judged }
    ensures { GrowsTo sys grid.now.tiles result }
{
    grid.recall_sites();
    let JudgedGrowth {
        order,
        verdict,
        outside,
    } = judged;
    Growth {
        sys,
        order,
        outside,
        verdict,
    }
}
