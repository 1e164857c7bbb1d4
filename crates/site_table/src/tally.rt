// How many tiles each number has placed, as they are read.
ghost use Rattle.std.specs.Prelude.{◌≡◌, ◌+◌, ◌<◌, ◌≤◌, ◌==◌, ◌^◌, ℕ, cond, length, slice_index};
ghost use Rattle.site_table.specs.Inner.Tallies.{tallied};

use std::marker::Model;

// How many tiles each number below 64 has placed. Tiles of one number mostly follow each other, so
// those of the last number are counted apart, and added when another one comes.
#[derive(Drop)]
pub(crate) struct Tally {
    counts: [u32; 64],
    last: usize,
    run: u32,
}

impl Model for Tally {
    ghost use Rattle.site_table.specs.Inner.Tallies.{TallyValue};

    ghost Value = { TallyValue };

    ghost view = { λ t. record { counts = t.counts; last = t.last; run = t.run } };
}

impl Tally {
    // No tile.
    pub(crate) fn new() -> Tally
        ensures { (n : ℕ) → tallied result n ≡ 0 }
    {
        Tally {
            counts: [0; 64],
            last: 0,
            run: 0,
        }
    }

    // One tile more, of this number.
    #[inline(always)]
    pub(crate) fn add(&mut self, number: usize)
        requires few { (n : ℕ) → tallied self.old n < 2 ^ 31 }
        ensures counts { (n : ℕ) → n < 64 →
            tallied self.new n ≡ tallied self.old n + cond (number == n) 1 0 }
        ensures few { (n : ℕ) → tallied self.new n ≤ tallied self.old n + 1 }
    {
        if number == self.last {
            self.run += 1;
            return;
        }
        self.turn_to(number);
        self.run = 1;
    }

    // The next tiles are of this number.
    fn turn_to(&mut self, number: usize)
        requires few { (n : ℕ) → tallied self.old n < 2 ^ 31 }
        ensures counts { (n : ℕ) → n < 64 → tallied self.new n ≡ tallied self.old n }
        ensures few { (n : ℕ) → tallied self.new n ≤ tallied self.old n }
        ensures last { self.new.last ≡ number }
        ensures run { self.new.run ≡ 0 }
    {
        if self.last < 64 {
            self.counts[self.last] += self.run;
        }
        self.last = number;
        self.run = 0;
    }

    // The counts of the numbers below 64.
    pub(crate) fn into_counts(self) -> [u32; 64]
        requires few { (n : ℕ) → tallied self n < 2 ^ 31 }
        ensures length { length result ≡ 64 }
        ensures counts { (n : ℕ) → n < 64 → slice_index result n ≡ tallied self n }
    {
        let mut tally = self;
        tally.turn_to(64);
        tally.counts
    }
}
