// The line of the verdict on a certificate.
ghost use Rattle.std.specs.Prelude.{◌≡◌, ◌∷◌, []};
ghost use Rattle.tile_io.specs.Prints.{Prints};
ghost use Rattle.cert_text.specs.CertificateLines.{NamesKnownType, failed_check, verified_line};

use crate::sides::side_letter;
use cert_check::CertVerdict;
use itoa::Buffer;
use tile_io::{Failed, Sink, print_line};
use tile_system::{Site, System};

/// Writes the `verified` line. It takes no memory.
pub fn print_cert_verdict<K: Sink>(
    sys: &System,
    verdict: &CertVerdict,
    sink: &mut K,
) -> Result<(), Failed>
    requires { NamesKnownType sys.now verdict.now }
    ensures { Prints K.written K.faults sink.old sink.new result
        (verified_line sys.now verdict.now) }
{
    match *verdict {
        CertVerdict::Yes => print_line(sink, b"verified", &[b"yes"]),
        CertVerdict::NoSeed(site) => print_site(b"1", site, sink),
        CertVerdict::SeedSides(site) => print_site(b"2", site, sink),
        CertVerdict::BadInput(site) => print_site(b"3", site, sink),
        CertVerdict::NotExact(site, sum) => {
            let mut number = Buffer::new();
            print_failed(b"4", site, number.format(sum).as_bytes(), sink)
        }
        CertVerdict::LooseBond(site, side) => print_failed(b"5", site, side_letter(side), sink),
        CertVerdict::Rival(site, tile) => print_failed(b"6", site, sys.type_name(tile), sink),
        CertVerdict::NotTerminal(site, tile) => print_failed(b"7", site, sys.type_name(tile), sink),
    }
}

// Writes the line of a check that fails at a site.
fn print_site<K: Sink>(check: &[u8], site: Site, sink: &mut K) -> Result<(), Failed>
    ensures { Prints K.written K.faults sink.old sink.new result
        (failed_check check.now site []) }
{
    let mut x = Buffer::new();
    let mut y = Buffer::new();
    let x = x.format(site.x).as_bytes();
    let y = y.format(site.y).as_bytes();
    print_line(sink, b"verified", &[b"no", check, x, y])
}

// The same, with what fails there.
fn print_failed<K: Sink>(check: &[u8], site: Site, what: &[u8], sink: &mut K) -> Result<(), Failed>
    ensures { Prints K.written K.faults sink.old sink.new result
        (failed_check check.now site (what.now ∷ [])) }
{
    let mut x = Buffer::new();
    let mut y = Buffer::new();
    let x = x.format(site.x).as_bytes();
    let y = y.format(site.y).as_bytes();
    print_line(sink, b"verified", &[b"no", check, x, y, what])
}
