// A law of every format of a text.
ghost use Rattle.tile_io.specs.Checks.{nothing_more};
ghost use Rattle.tile_io.specs.Formats.{Format};
ghost use Rattle.tile_io.specs.ReadOrFault.{ReadsOrFails};

/// In every format a text reads or has a fault, also in the one that lets nothing more follow.
pub fn law_read_or_fault<Item>()
    ensures any { (format : Format Item) → ReadsOrFails format }
    ensures nothing_more { ReadsOrFails nothing_more }
{}
