// The characters of types and of sites.
ghost use Rattle.std.specs.Prelude.{◌≡◌};
ghost use Rattle.picture.specs.Pictures.{site_character, type_character};

use assembly::Grid;
use atam::{Site, TypeId};
use tile_system::Placed;

/// The characters of the types of the first indices.
pub const CHARACTERS: [u8; 62] = *b"ABCDEFGHIJKLMNOPQRSTUVWXYZabcdefghijklmnopqrstuvwxyz0123456789";

pub(crate) fn type_character(tile: TypeId) -> u8
    ensures { result ≡ type_character tile }
{
    CHARACTERS.get(tile.0 as usize).copied().unwrap_or(b'#')
}

pub(crate) fn site_character(grid: &Grid, site: Site) -> u8
    ensures { result ≡ site_character grid.now.tiles site }
{
    grid.at(site).map(type_character).unwrap_or(b'.')
}
