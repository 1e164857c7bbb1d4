// The borders, and which of them a line is of.
ghost use Rattle.std.specs.Prelude.{◌≡◌, bytes_eq, find, Some, IfSome};
ghost use Rattle.tile_io.specs.Checks.{field};
ghost use Rattle.quadrant_compile.specs.QuadrantText.{quadrant_table};
ghost use Rattle.quadrant_compile.specs.Inner.Keywords.{row_of};
ghost use Rattle.quadrant_compile.specs.Inner.Borders.{border_kind};

use crate::line_kind::LineKind;
use tile_io::LineWords;

/// A border.
#[derive(Clone, Copy, Debug, PartialEq, Eq)]
pub(crate) enum Border {
    Bottom,
    Left,
}

impl Border {
    /// The border that a line of these words is of.
    pub(crate) fn of(words: &LineWords) -> Option<Border>
        ensures { IfSome result (λ border. find (λ row.
            bytes_eq (field words.now 0) row.word) quadrant_table.keywords
            ≡ Some (row_of (border_kind border))) }
    {
        if words.len() == 0 {
            return None;
        }
        let kind = LineKind::of(words.word(0))?;
        match kind {
            LineKind::Bottom => Some(Border::Bottom),
            LineKind::Left => Some(Border::Left),
            _ => None,
        }
    }

    /// The keyword of its lines.
    pub(crate) fn kind(self) -> LineKind
        ensures { result ≡ border_kind self }
    {
        match self {
            Border::Bottom => LineKind::Bottom,
            Border::Left => LineKind::Left,
        }
    }
}
