// All lines of a text.
ghost use Rattle.std.specs.Prelude.{◌≡◌, ◌≤◌, [], length};
ghost use Rattle.tile_io.specs.declared.mark.Mark.{Mark};
ghost use Rattle.tile_io.specs.NextLine.{IsMark};
ghost use Rattle.tile_io.specs.Formats.{ReadsOrStops};
ghost use Rattle.tile_io.specs.Checks.{table_format};
ghost use Rattle.tile_io.specs.LineReader.{ReadsInto};

use crate::fault::{Cause, TextStop};
use crate::limits::MOST_INPUT;
use crate::line_reader::LineReader;
use crate::mark::Mark;
use crate::stretch::read_last_lines;

/// Reads the lines of a text, up to its own end line or the end of the input.
pub fn read_text<R: LineReader>(reader: &mut R, text: &[u8], from: Mark) -> Result<Mark, TextStop>
    requires empty { R.holds reader.old [] }
    requires short { length text.now ≤ MOST_INPUT }
    requires mark { IsMark text.now from }
    ensures read { ReadsOrStops (table_format (R.table (R.context reader.old))) text.now from
        (ReadsInto (table_format (R.table (R.context reader.old))) text.now from
        (R.holds reader.new))
        result }
    ensures context { R.context reader.new ≡ R.context reader.old }
{
    read_last_lines(reader, text, from, Cause::NoHeader)
}
