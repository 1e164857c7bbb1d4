// The rule of the table, and the names of its steps.
ghost use Rattle.site_table.specs.Rule.{TableInvariant};
ghost use Rattle.site_table.specs.Plays.{ClaimStep, LookStep, CheckStep};
ghost use Rattle.site_table.specs.Views.{first_view, kept_view, given_view, united_view, spent_view};

use crate::SeatView;
use atomic_table::{Join, Play, Split, TableRule};
use tile_system::System;

/// Words and views spell a state of the growth core.
pub struct GrowthRule;

impl TableRule<(), SeatView, System> for GrowthRule {
    ghost holds = { λ sys. TableInvariant sys };

    ghost first = { first_view };
}

pub struct Claim;

impl Play<(), SeatView> for Claim {
    ghost then = { ClaimStep };
}

pub struct Look;

impl Play<(), SeatView> for Look {
    ghost then = { LookStep };
}

pub struct Check;

impl Play<(), SeatView> for Check {
    ghost then = { CheckStep };
}

pub struct Divide;

impl Split<SeatView> for Divide {
    ghost left = { kept_view };

    ghost right = { given_view };
}

pub struct Unite;

impl Join<SeatView> for Unite {
    ghost both = { united_view };

    ghost spent = { spent_view };
}
