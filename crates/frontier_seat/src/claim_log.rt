// The sites of claims, in their order.
ghost use Rattle.std.specs.Prelude.{◌≡◌, ◌<◌, ◌≤◌, [], ◌∷◌, ◌++◌, true, length, IfOk, IsTrue};
ghost use Rattle.atam.specs.Sites.{IsBox};
ghost use Rattle.atam.specs.Canonical.{IsCanonical};
ghost use Rattle.assembly.specs.Cells.{cell_count};
ghost use Rattle.frontier_seat.specs.Orders.{AreCanonicalClaims};

use assembly::{Grid, PlaceLog, Row, Sequence};
use std::alloc::Global;
use std::marker::Model;
use tile_system::{BoxArea, NoMemory, Place, System};

/// The numbers of the sites that were claimed, in their order: four bytes a site of the box. The
/// types that stand there are a grid's. It is kept too whether each site then had the type for which
/// it was claimed, and whether each of these tiles came clean, as far as that was clear when it was
/// claimed.
#[derive(Drop)]
pub struct ClaimLog {
    numbers: Vec<u32>,
    in_order: bool,
    clean: bool,
}

impl Model for ClaimLog {
    ghost use Rattle.std.specs.Prelude.{vec_capacity};
    ghost use Rattle.frontier_seat.specs.Orders.{LoggedClaims};

    ghost Value = { LoggedClaims };

    ghost view = { λ l. record {
      numbers = l.numbers.items;
      room = vec_capacity l.numbers;
      in_order = l.in_order;
      clean = l.clean;
    } };
}

impl ClaimLog {
    /// No claim, with room for one at each site of the box.
    pub fn make(alloc: Global, area: BoxArea) -> Result<ClaimLog, NoMemory>
        requires { IsBox area }
        ensures none { IfOk result (λ log. log.numbers ≡ []) }
        ensures room { IfOk result (λ log. cell_count area ≤ log.room) }
        ensures in_order { IfOk result (λ log. IsTrue log.in_order) }
    {
        let count = area.width() as usize * area.height() as usize;
        Ok(ClaimLog {
            numbers: Vec::with_capacity(alloc, count)?,
            in_order: true,
            clean: true,
        })
    }

    // One claim more, whether the type for which it was made stands there then, and whether it is
    // clear that it came clean.
    #[inline(always)]
    pub(crate) fn push(&mut self, number: u32, picked: bool, clean: bool)
        requires { length self.old.numbers < self.old.room }
        ensures numbers { self.new.numbers ≡ self.old.numbers ++ number ∷ [] }
        ensures room { self.new.room ≡ self.old.room }
        ensures in_order { IsTrue self.new.in_order → (self.old.in_order ≡ true) × (picked ≡ true) }
        ensures keeps { IsTrue self.old.in_order → IsTrue picked → IsTrue self.new.in_order }
        ensures clean { IsTrue self.new.clean → (self.old.clean ≡ true) × (clean ≡ true) }
    {
        self.numbers.push_reserved(number);
        self.in_order = self.in_order && picked;
        self.clean = self.clean && clean;
    }

    /// Whether each logged site then had the type for which it was claimed, so that the tiles there
    /// came in canonical order.
    pub fn is_in_order(&self) -> bool
        ensures { result ≡ self.now.in_order }
    {
        self.in_order
    }

    /// Whether it is clear that each claim came clean, held by exactly the temperature.
    pub fn is_clean(&self) -> bool
        ensures { result ≡ self.now.clean }
    {
        self.clean
    }

    /// The canonical sequence of a grid whose tiles were claimed in this order.
    pub fn sequence_of(
        &self,
        alloc: Global,
        sys: &System,
        grid: &Grid,
    ) -> Result<Sequence, NoMemory>
        requires area { grid.now.area ≡ sys.now.area }
        requires order { AreCanonicalClaims sys.now grid.now.tiles self.now.numbers }
        ensures { IfOk result (IsCanonical sys.now grid.now.tiles) }
    {
        let area = sys.area();
        grid.recall_sites();
        let mut log = PlaceLog::make(alloc, sys)?;
        let mut row = Row::least(&area);
        for number in &self.numbers {
            let number = *number as usize;
            let site = row.site(&area, number);
            let tile = grid.tile(number).unwrap();
            log.push(Place { site, tile });
        }
        Ok(log.into_sequence())
    }
}
