// Certificates as lists of entries, by calls of the library: made, printed, read back and checked,
// beside the same that are made in order.
ghost use Rattle.std.specs.Prelude.{◌≡◌, All, IfOk};
ghost use Rattle.atam.specs.TileSystem.{IsType};
ghost use Rattle.atam.specs.Assembly.{Fits};
ghost use Rattle.replay_order.specs.ReplayAnswers.{IsWholeOrder};
ghost use Rattle.cert_check.specs.Certificates.{places_of};

use crate::certificates::CHAIN_MARKS;
use assembly::{Grid, Sequence};
use cert_check::{CertVerdict, Certificate, certificate_in_order, certificate_of, verify};
use cert_text::{print_certificate, print_entries, read_certificate};
use local_check::inputs_of_grid;
use replay_order::replay;
use std::alloc::Global;
use std::test::Fail;
use std::thread::Threads;
use tile_io::{MOST_INPUT, Mark, MemorySink, OpenGate, TextStop};
use tile_system::{Site, System, TypeId};
use tile_text::read_any;
use worked_systems::{CHAIN, MISMATCH, PAIRED, RIVALS, SINGLE, SQUARE, Spot, TWO_SEEDS, grid_of};

// More bytes than any of these certificates has.
const ROOM: usize = 4096;

// A system, the places of an assembly, its certificate, and the verdict on that.
type Listed = (&'static str, &'static [Spot], &'static str, CertVerdict);

const LISTED: [Listed; 8] = [
    (SINGLE, &[(0, 0, 0)], "mark 0 0 S - 0\n", CertVerdict::Yes),
    (
        CHAIN,
        &[(2, 0, 2), (0, 0, 0), (1, 0, 1)],
        CHAIN_MARKS,
        CertVerdict::Yes,
    ),
    (
        TWO_SEEDS,
        &[(1, 0, 2), (2, 0, 1), (0, 0, 0)],
        "mark 0 0 S - 0\nmark 2 0 T - 1\nmark 1 0 M EW 2\n",
        CertVerdict::Yes,
    ),
    (
        PAIRED,
        &[(0, 0, 0), (1, 0, 2)],
        "mark 0 0 S - 0\nmark 1 0 B W 1\n",
        CertVerdict::Yes,
    ),
    (
        MISMATCH,
        &[
            (0, 0, 0),
            (1, 0, 1),
            (2, 0, 2),
            (0, 1, 3),
            (1, 1, 4),
            (2, 1, 5),
        ],
        "mark 0 0 S - 0\nmark 1 0 B W 1\nmark 2 0 D W 2\nmark 0 1 L S 3\nmark 1 1 T SW 4\n\
            mark 2 1 R S 5\n",
        CertVerdict::Yes,
    ),
    // each legal order of growth has a certificate, which need not be good
    (
        SQUARE,
        &[(0, 0, 0), (1, 0, 1), (0, 1, 2), (1, 1, 3)],
        "mark 0 0 S - 0\nmark 1 0 E W 1\nmark 0 1 N S 2\nmark 1 1 C SW 3\n",
        CertVerdict::NotExact(Site { x: 1, y: 1 }, 2),
    ),
    (
        RIVALS,
        &[(0, 0, 0), (1, 0, 1)],
        "mark 0 0 S - 0\nmark 1 0 A W 1\n",
        CertVerdict::Rival(Site { x: 1, y: 0 }, TypeId(2)),
    ),
    (
        CHAIN,
        &[(0, 0, 0), (1, 0, 1)],
        "mark 0 0 S - 0\nmark 1 0 B W 1\n",
        CertVerdict::NotTerminal(Site { x: 2, y: 0 }, TypeId(2)),
    ),
];

// The system of a text of either version.
#[tactic(auto, using(tile_io::proofs::Progress::start_is_mark))]
fn system_of(alloc: Global, text: &str) -> Result<System, TextStop> {
    let bytes = text.as_bytes();
    let (sys, _end) = read_any(alloc, &bytes[..bytes.len().min(MOST_INPUT)], Mark::start())?;
    Ok(sys)
}

// The text of a list.
fn printed(alloc: Global, sys: &System, list: &Certificate) -> Result<Vec<u8>, Fail>
    requires { All (λ p. IsType sys.now p.tile) (places_of list.now) }
{
    let mut sink = MemorySink::make(alloc, ROOM, ROOM, Vec::new(alloc))?;
    print_certificate(sys, list, &mut sink)?;
    Ok(sink.bytes().to_vec(alloc)?)
}

// The text of the certificate of an order, made as a list.
fn listed(alloc: Global, sys: &System, grid: &Grid, order: &Sequence) -> Result<Vec<u8>, Fail>
    requires area { grid.now.area ≡ sys.now.area }
    requires ordered { IsWholeOrder sys.now grid.now.tiles order.now }
{
    let sides = inputs_of_grid(alloc, sys, order, grid)?;
    let list = certificate_of(alloc, sys, order, &sides)?;
    printed(alloc, sys, &list)
}

// The text of the same, made in order.
fn listed_in_order(
    alloc: Global,
    sys: &System,
    grid: &Grid,
    order: Sequence,
) -> Result<Vec<u8>, Fail>
    requires area { grid.now.area ≡ sys.now.area }
    requires ordered { IsWholeOrder sys.now grid.now.tiles order }
{
    let sides = inputs_of_grid(alloc, sys, &order, grid)?;
    let entries = certificate_in_order(alloc, sys, order, &sides)?;
    let mut sink = MemorySink::make(alloc, ROOM, ROOM, Vec::new(alloc))?;
    print_entries(sys, &entries, &mut sink)?;
    Ok(sink.bytes().to_vec(alloc)?)
}

// Whether the certificate of an assembly has this text, made as a list and made in order.
fn is_listed_so(alloc: Global, sys: &System, grid: &Grid, text: &str) -> Result<bool, Fail>
    requires area { grid.now.area ≡ sys.now.area }
    requires fits { Fits sys.now grid.now.tiles }
{
    let order = replay(alloc, sys, grid)?;
    let list = listed(alloc, sys, grid, &order)?;
    let in_order = listed_in_order(alloc, sys, grid, order)?;
    Ok(list.as_slice() == text.as_bytes() && in_order.as_slice() == text.as_bytes())
}

// The list that a text is read as, and what is printed of it.
#[tactic(auto, using(tile_io::proofs::Progress::start_is_mark))]
fn read_again(alloc: Global, sys: &System, text: &[u8]) -> Result<(Certificate, Vec<u8>), Fail>
    ensures { IfOk result (λ read. Fits sys.now (places_of read.0)) }
{
    let text = &text[..text.len().min(MOST_INPUT)];
    let list = read_certificate(alloc, sys, text, Mark::start())?;
    let again = printed(alloc, sys, &list)?;
    Ok((list, again))
}

// Whether the text is read as a list that is printed as it is, and that has this verdict.
fn is_read_so<R: Threads + Sync>(
    rt: &R,
    alloc: Global,
    sys: &System,
    text: &str,
    verdict: CertVerdict,
) -> Result<bool, Fail> {
    let (list, again) = read_again(alloc, sys, text.as_bytes())?;
    let found = verify(rt, alloc, sys, &list, 2, &OpenGate)?;
    Ok(again.as_slice() == text.as_bytes() && found == verdict)
}

#[test]
fn a_list_is_the_same_as_in_order(rt: HostRuntime) -> Result<(), Fail> {
    for (number, (text, spots, marks, verdict)) in LISTED.iter().enumerate() {
        let sys = system_of(rt.alloc(), text)?;
        let grid = grid_of(rt.alloc(), &sys, spots)?;
        assert!(rt; is_listed_so(rt.alloc(), &sys, &grid, marks)?, "{number}");
        assert!(rt;
            is_read_so(&rt, rt.alloc(), &sys, marks, *verdict)?,
            "{number}"
        );
    }
    Ok(())
}
