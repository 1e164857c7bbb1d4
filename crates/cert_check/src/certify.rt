// The certificates of a sequence.
ghost use Rattle.std.specs.Prelude.{◌≡◌, ◌<◌, ◌≤◌, IfOk, length};
ghost use Rattle.atam.specs.declared.site.Side.TheVariants.{North, East, South, West};
ghost use Rattle.atam.specs.Assembly.{Fits};
ghost use Rattle.atam.specs.Growth.{IsLegal};
ghost use Rattle.atam.specs.Determinism.{IsLocallyDeterministic};
ghost use Rattle.local_check.specs.SideSets.{AreSidesOf, input_at};
ghost use Rattle.cert_check.specs.Certificates.{IsCertificateOf, IsGood};
ghost use Rattle.cert_check.specs.Inner.Bits.{bit as bit_or_none, bits};

use crate::{Certificate, Entry, OrderedCertificate};
use assembly::Sequence;
use local_check::SideSets;
use std::alloc::Global;
use tile_system::{NoMemory, Side, System};

/// The certificate of a legal sequence, by its sides: the places in their order, each with its
/// input sides and its index as its rank. It takes twenty bytes a place.
pub fn certificate_of(
    alloc: Global,
    sys: &System,
    seq: &Sequence,
    sides: &SideSets<'_>,
) -> Result<Certificate, NoMemory>
    requires legal { IsLegal sys.now seq.now }
    requires fits { Fits sys.now seq.now }
    requires sides { AreSidesOf sys.now seq.now sides.now }
    ensures certificate { IfOk result (IsCertificateOf sys.now seq.now) }
    ensures good { IsLocallyDeterministic sys.now seq.now → IfOk result (IsGood sys.now) }
{
    sys.recall_valid();
    let mut entries = Vec::with_capacity(alloc, seq.len())?;
    for index in 0..seq.len() {
        entries.push_reserved(Entry {
            place: seq.get(index),
            sides: input_bits(sides, index),
            rank: index as u32,
        });
    }
    Ok(Certificate::of(entries))
}

/// The same, with its entries made from the sequence when they are asked for. It takes a byte a
/// place beside the sequence.
pub fn certificate_in_order(
    alloc: Global,
    sys: &System,
    order: Sequence,
    sides: &SideSets<'_>,
) -> Result<OrderedCertificate, NoMemory>
    requires legal { IsLegal sys.now order }
    requires fits { Fits sys.now order }
    requires sides { AreSidesOf sys.now order sides.now }
    ensures certificate { IfOk result (IsCertificateOf sys.now order) }
    ensures good { IsLocallyDeterministic sys.now order → IfOk result (IsGood sys.now) }
{
    sys.recall_valid();
    let mut stated = Vec::with_capacity(alloc, order.len())?;
    for index in 0..order.len() {
        stated.push_reserved(input_bits(sides, index));
    }
    Ok(OrderedCertificate::of(order, stated))
}

// The input sides of a place, as an entry states them.
#[tactic(auto, unfolding(crate::specs::Inner::Bits::bits))]
fn input_bits(sides: &SideSets<'_>, index: usize) -> u8
    requires { index < length sides.now.outputs }
    ensures value { result ≡ bits (input_at sides.now index North) (input_at sides.now index East)
        (input_at sides.now index South) (input_at sides.now index West) }
    ensures small { result < 16 }
{
    bit_if(sides.input(index, Side::North), 1)
        + bit_if(sides.input(index, Side::East), 2)
        + bit_if(sides.input(index, Side::South), 4)
        + bit_if(sides.input(index, Side::West), 8)
}

// The bit, if it is there.
#[tactic(auto, unfolding(crate::specs::Inner::Bits::bit))]
fn bit_if(is_there: bool, bit: u8) -> u8
    ensures value { result ≡ bit_or_none is_there bit }
    ensures bound { result ≤ bit }
{
    if is_there { bit } else { 0 }
}
