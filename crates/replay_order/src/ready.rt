// The numbers of the sites that are ready.
ghost use Rattle.std.specs.Prelude.{◌≡◌, ◌<◌, ℕ, IfSome, IfNone, IfOk};
ghost use Rattle.replay_order.specs.Inner.ReadyNumbers.{IsAmong, IsLeastAmong, Loses, Receives};

use number_set::NumberSet;
use std::alloc::Global;
use std::marker::Model;
use tile_system::NoMemory;

// Numbers below a bound. The least one may be kept apart: mostly the site that gets ready is the
// next one to follow, and then the set is not written. Each call but `make` takes no memory.
#[derive(Drop)]
pub(crate) struct ReadyNumbers {
    least: Option<usize>,
    others: NumberSet,
}

impl Model for ReadyNumbers {
    ghost use Rattle.replay_order.specs.Inner.ReadyNumbers.{ReadyNumbers, AreInOrder};

    ghost Value = { ReadyNumbers };

    ghost view = { λ r. record { least = r.least; others = r.others } };

    ghost invariant = { λ r. AreInOrder (record { least = r.least; others = r.others }) };
}

impl ReadyNumbers {
    // No number, with room for each below the bound.
    pub(crate) fn make(alloc: Global, bound: u32) -> Result<ReadyNumbers, NoMemory>
        ensures bound { IfOk result (λ r. r.others.bound ≡ bound) }
        ensures empty { IfOk result (λ r. (n : ℕ) → ¬ IsAmong r n) }
    {
        Ok(ReadyNumbers {
            least: None,
            others: NumberSet::make(alloc, bound)?,
        })
    }

    #[inline(always)]
    pub(crate) fn insert(&mut self, number: usize)
        requires { number < self.old.others.bound }
        ensures bound { self.new.others.bound ≡ self.old.others.bound }
        ensures receives { Receives self.old self.new number }
    {
        match self.least {
            None => self.insert_alone(number),
            Some(least) => self.insert_beside(number, least),
        }
    }

    // The same where none is kept apart.
    #[inline(always)]
    fn insert_alone(&mut self, number: usize)
        requires within { number < self.old.others.bound }
        requires none { self.old.least ≡ None }
        ensures bound { self.new.others.bound ≡ self.old.others.bound }
        ensures receives { Receives self.old self.new number }
    {
        if let Some(least) = self.others.least() {
            if least <= number {
                self.others.insert(number);
                return;
            }
        }
        self.least = Some(number);
    }

    // The same where one is.
    #[inline(always)]
    fn insert_beside(&mut self, number: usize, least: usize)
        requires within { number < self.old.others.bound }
        requires least { self.old.least ≡ Some least }
        ensures bound { self.new.others.bound ≡ self.old.others.bound }
        ensures receives { Receives self.old self.new number }
    {
        if number < least {
            self.others.insert(least);
            self.least = Some(number);
        } else if number > least {
            self.others.insert(number);
        }
    }

    // Takes the least number out.
    #[inline(always)]
    pub(crate) fn take_least(&mut self) -> Option<usize>
        ensures bound { self.new.others.bound ≡ self.old.others.bound }
        ensures below { IfSome result (λ n. n < self.old.others.bound) }
        ensures least { IfSome result (IsLeastAmong self.old) }
        ensures loses { IfSome result (Loses self.old self.new) }
        ensures none { IfNone result ((n : ℕ) → ¬ IsAmong self.old n) }
    {
        let Some(least) = self.least else {
            return self.others.pop_least();
        };
        self.least = None;
        Some(least)
    }
}
