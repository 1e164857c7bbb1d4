// The system at the front of an input with what follows it, or the machine, two-input rule or batch
// that it is.
ghost use Rattle.tile_io.specs.Lines.{first_mark};
ghost use Rattle.tile_io.specs.Formats.{Fault};
ghost use Rattle.quadrant_compile.specs.QuadrantText.{ReadsQuadrant, quadrant_format};
ghost use Rattle.machine_text.specs.MachineText.{ReadsMachine, machine_format};
ghost use Rattle.std.specs.Prelude.{◌≡◌, ◌<◌, ◌≤◌, ◌^◌, ℕ, true, false, List, [], length};
ghost use Rattle.std.specs.Prelude.{Option, IfOk};
ghost use Rattle.std.specs.Io.KnownBytes.{IsAtEnd};
ghost use Rattle.tile_io.specs.declared.limits.TheConstants.{MOST_INPUT};
ghost use Rattle.tile_io.specs.NextLine.{IsMark};
ghost use Rattle.tile_text.specs.SystemText.{FaultAny, ReadsAny};
ghost use Rattle.tile_io.specs.Blocks.{TakesOn};
ghost use Rattle.tilebench.specs.Inner.Gives.{Gives, GivesBehind, GivesRead, HoldsWhole};
ghost use Rattle.tilebench.specs.Inner.Fronts.{FailsAtFront, IsFront};
ghost use Rattle.machine_text.specs.Machines.{IsMachine};
ghost use Rattle.quadrant_compile.specs.Quadrants.{IsQuadrant};
ghost use Rattle.job_board.specs.declared.limits.TheConstants.{MOST_JOBS};
ghost use Rattle.atam.specs.Assembly.{Fits};
ghost use Rattle.seq_text.specs.GrowthText.{grid_format, sequence_format, ReadsPlaces};
ghost use Rattle.cert_check.specs.Certificates.{places_of};
ghost use Rattle.cert_text.specs.CertificateText.{certificate_format, ReadsCertificate};
ghost use Rattle.tilebench.specs.Inputs.{FailsWithin, IsAlone, IsBatch, IsSystemThen};
ghost use Rattle.tilebench.specs.Inputs.{ReadsAssembly, alone};
ghost use Rattle.job_board.specs.BatchText.{FaultBatch};

use crate::stop::Stop;
use assembly::{Grid, Sequence};
use cert_check::Certificate;
use cert_text::read_certificate_in_blocks;
use job_board::{Job, read_batch};
use machine_text::{Machine, read_machine};
use memchr::memmem;
use quadrant_compile::{Quadrant, read_quadrant};
use seq_text::{read_grid_in_blocks, read_sequence_in_blocks};
use std::alloc::Global;
use tile_io::{Begun, Mark, Source, begin_text, check_rest, read_rest};
use tile_system::System;
use tile_text::read_any;

/// The system whose text the input begins with, of either version, and the mark behind it.
pub fn read_front(alloc: Global, input: &[u8]) -> Result<(System, Mark), Stop>
    requires { length input.now ≤ MOST_INPUT }
    ensures read { Gives (λ found. ReadsAny input.now first_mark found.0 found.1)
        (λ fault. FaultAny input.now first_mark fault.line fault.cause) result }
    ensures mark { IfOk result (λ found. IsMark input.now found.1) }
{
    Ok(read_any(alloc, input, Mark::start())?)
}

/// The system whose text the input is.
pub fn read_alone(alloc: Global, input: &[u8]) -> Result<System, Stop>
    requires { length input.now ≤ MOST_INPUT }
    ensures { Gives (IsAlone ReadsAny input.now)
        (FailsWithin ReadsAny FaultAny alone input.now) result }
{
    let (sys, end) = read_front(alloc, input)?;
    check_rest(input, end)?;
    Ok(sys)
}

/// The machine whose text the input is.
pub fn read_machine_alone(alloc: Global, input: &[u8]) -> Result<Machine, Stop>
    requires { length input.now ≤ MOST_INPUT }
    ensures read { Gives (IsAlone ReadsMachine input.now)
        (FailsWithin ReadsMachine (Fault machine_format) alone input.now) result }
    ensures valid { IfOk result IsMachine }
{
    let (machine, end) = read_machine(alloc, input, Mark::start())?;
    check_rest(input, end)?;
    Ok(machine)
}

/// The two-input rule whose text the input is.
pub fn read_quadrant_alone(alloc: Global, input: &[u8]) -> Result<Quadrant, Stop>
    requires { length input.now ≤ MOST_INPUT }
    ensures read { Gives (IsAlone ReadsQuadrant input.now)
        (FailsWithin ReadsQuadrant (Fault quadrant_format) alone input.now) result }
    ensures valid { IfOk result IsQuadrant }
{
    let (quadrant, end) = read_quadrant(alloc, input, Mark::start())?;
    check_rest(input, end)?;
    Ok(quadrant)
}

/// The jobs of the batch whose text the input is.
pub fn read_jobs(alloc: Global, input: &[u8]) -> Result<Vec<Job>, Stop>
    requires { length input.now ≤ MOST_INPUT }
    ensures read { Gives (λ jobs. IsBatch input.now jobs.items)
        (λ fault. FaultBatch input.now first_mark fault.line fault.cause) result }
    ensures some { IfOk result (λ jobs. 1 ≤ length jobs.items) }
    ensures few { IfOk result (λ jobs. length jobs.items ≤ MOST_JOBS) }
{
    Ok(read_batch(alloc, input, Mark::start())?)
}

/// The system and the sequence whose texts are all that is left of a source, which is read in
/// blocks.
pub fn system_and_sequence<S: Source>(
    alloc: Global,
    source: &mut S,
) -> Result<(System, Sequence), Stop>
    ensures read { GivesRead S.left S.faults
        (HoldsWhole (λ input found. IsSystemThen (ReadsPlaces false) input found.0 found.1))
        (FailsWithin ReadsAny FaultAny sequence_format) source.old source.new result }
    ensures later { S.faults source.old ≤ S.faults source.new }
    ensures fits { IfOk result (λ found. Fits found.0 found.1) }
    ensures short { IfOk result (λ found. length found.1 < 2 ^ 32) }
{
    let SystemFront { sys, begun, end } = front_of(alloc, source)?;
    let sequence = read_sequence_in_blocks(alloc, &sys, source, begun, end)?;
    Ok((sys, sequence))
}

/// The same of a system and an assembly.
pub fn system_and_grid<S: Source>(alloc: Global, source: &mut S) -> Result<(System, Grid), Stop>
    ensures read { GivesRead S.left S.faults
        (HoldsWhole (λ input found. IsSystemThen ReadsAssembly input found.0 found.1.tiles))
        (FailsWithin ReadsAny FaultAny grid_format) source.old source.new result }
    ensures later { S.faults source.old ≤ S.faults source.new }
    ensures area { IfOk result (λ found. found.1.area ≡ found.0.area) }
    ensures fits { IfOk result (λ found. Fits found.0 found.1.tiles) }
{
    let SystemFront { sys, begun, end } = front_of(alloc, source)?;
    let grid = read_grid_in_blocks(alloc, &sys, source, begun, end)?;
    Ok((sys, grid))
}

/// The same of a system and a certificate.
pub fn system_and_certificate<S: Source>(
    alloc: Global,
    source: &mut S,
) -> Result<(System, Certificate), Stop>
    ensures read { GivesRead S.left S.faults
        (HoldsWhole (λ input found. IsSystemThen ReadsCertificate input found.0 found.1))
        (FailsWithin ReadsAny FaultAny certificate_format) source.old source.new result }
    ensures later { S.faults source.old ≤ S.faults source.new }
    ensures fits { IfOk result (λ found. Fits found.0 (places_of found.1)) }
{
    let SystemFront { sys, begun, end } = front_of(alloc, source)?;
    let certificate = read_certificate_in_blocks(alloc, &sys, source, begun, end)?;
    Ok((sys, certificate))
}

// The system that a text begins with, what was read of the text so far, and the mark behind the
// system.
struct SystemFront {
    sys: System,
    begun: Begun,
    end: Mark,
}

// The system that what is left of a source begins with. Where it doesn't end within the first
// block, all is read first. A block that shows no end line isn't tried.
fn front_of<S: Source>(alloc: Global, source: &mut S) -> Result<SystemFront, Stop>
    ensures read { GivesRead S.left S.faults IsFront FailsAtFront source.old source.new result }
    ensures later { S.faults source.old ≤ S.faults source.new }
{
    let begun = begin_text(alloc, source)?;
    if may_end_in(&begun) {
        match read_front(alloc, &begun.text) {
            Ok((sys, end)) => return Ok(SystemFront { sys, begun, end }),
            Err(stop) if begun.is_whole => return Err(stop),
            // What follows may mend it.
            Err(_) => {}
        }
    }
    front_of_whole(alloc, source, begun)
}

// Whether the system may end within what was begun. An end line with a blank before its word isn't
// seen where more follows, which costs time alone.
fn may_end_in(begun: &Begun) -> bool {
    begun.is_whole || memmem::find(&begun.text, b"\nend").is_some()
}

// The same behind the first bytes, where all that follows is read first.
fn front_of_whole<S: Source>(
    alloc: Global,
    source: &mut S,
    begun: Begun,
) -> Result<SystemFront, Stop>
    requires short { length begun.text.items ≤ MOST_INPUT }
    requires whole { begun.is_whole ≡ true → IsAtEnd (S.left source.old) }
    ensures read { (left : Option (List ℕ)) → TakesOn left (S.left source.old) [] begun.text.items
        → GivesBehind left S.left S.faults IsFront FailsAtFront source.old source.new result }
    ensures later { S.faults source.old ≤ S.faults source.new }
{
    let text = read_rest(source, begun)?;
    let (sys, end) = read_front(alloc, &text)?;
    let begun = Begun {
        text,
        is_whole: true,
    };
    Ok(SystemFront { sys, begun, end })
}
