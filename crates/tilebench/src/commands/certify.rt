// `certify`: the certificate of an assembly's canonical order.
ghost use Rattle.std.specs.Prelude.{refl, ◌≡◌, IfOk};
ghost use Rattle.atam.specs.Assembly.{Fits};
ghost use Rattle.replay_order.specs.ReplayAnswers.{IsWholeOrder};
ghost use Rattle.local_check.specs.SideSets.{AreSidesOf};
ghost use Rattle.seq_text.specs.GrowthText.{grid_format};
ghost use Rattle.tilebench.specs.Inner.Certifications.{IsCertification, certification_text};
ghost use Rattle.tilebench.specs.Inner.Certifications.{is_given};
ghost use Rattle.tilebench.specs.Inner.CommandRows.{certify_row};
ghost use Rattle.tilebench.specs.Inner.Rooms.{CertifiesTypes};
ghost use Rattle.tilebench.specs.Inner.Readings.{taken_or_faulty};

use crate::input::system_and_grid;
use crate::reordering::{Reordering, print_reordering, reordering_of};
use crate::room::{Reply, Room, SourceRoom};
use crate::stop::Stop;
use assembly::{Grid, Sequence};
use atam::Verdict;
use cert_check::{EntryList, OrderedCertificate, certificate_in_order};
use cert_text::print_entries;
use local_check::{SideSets, inputs_of_grid, judge};
use seq_text::print_verdict;
use site_table::Grown;
use std::alloc::Global;
use tile_io::{Failed, Sink, Source};
use tile_system::{NoMemory, System};

/// The command.
#[derive(Clone, Copy)]
pub struct Certify;

impl Room for Certify {
    type Answer = Certified;

    ghost room_row = { λ room. certify_row };

    fn reads_input(&self) -> bool {
        true
    }

    ghost one_of_two = { λ room. taken_or_faulty grid_format };
}

impl SourceRoom for Certify {
    ghost reads_source = { λ room. refl };

    fn answer_from<S: Source>(
        &self,
        alloc: Global,
        source: &mut S,
    ) -> Result<(Certified, Option<Grown>), Stop> {
        let (sys, grid) = system_and_grid(alloc, source)?;
        let certification = certification_of(alloc, &sys, &grid)?;
        Ok((Certified { sys, certification }, None))
    }
}

/// The certificate of an assembly of a system, or what keeps it from having one.
pub struct Certified {
    pub sys: System,
    pub certification: Certification,
}

impl Drop for Certified {
    fn drop(self) {
        let Certified {
            sys: _sys,
            certification: _certification,
        } = self;
    }
}

/// The certificate of an assembly, or what keeps it from having one.
#[derive(Drop)]
pub enum Certification {
    /// That of the canonical order.
    Given(OrderedCertificate),
    /// The verdict on the canonical order, which is a no.
    Refuted(Verdict),
    /// The tiles have no canonical order.
    Unordered(Reordering),
}

impl Reply for Certified {
    ghost text = { λ certified. certification_text certified.sys certified.certification };

    ghost yes = { λ certified. is_given certified.certification };

    ghost printable = { λ certified. CertifiesTypes certified.sys certified.certification };

    fn is_yes(&self) -> bool {
        matches!(self.certification, Certification::Given(_))
    }

    fn print<K: Sink>(&self, out: &mut K) -> Result<(), Failed> {
        match &self.certification {
            Certification::Given(certificate) => print_entries(&self.sys, certificate, out),
            Certification::Refuted(verdict) => print_verdict(&self.sys, verdict, out),
            Certification::Unordered(reordering) => print_reordering(&self.sys, reordering, out),
        }
    }
}

// The certificate of an assembly, or what keeps it from having one.
fn certification_of(alloc: Global, sys: &System, grid: &Grid) -> Result<Certification, NoMemory>
    requires area { grid.now.area ≡ sys.now.area }
    requires fits { Fits sys.now grid.now.tiles }
    ensures certified { IfOk result (IsCertification sys.now grid.now.tiles) }
    ensures types { IfOk result (CertifiesTypes sys.now) }
{
    let reordering = reordering_of(alloc, sys, grid)?;
    match reordering {
        Reordering::Whole(order) => certification_by(alloc, sys, grid, order),
        unordered => Ok(Certification::Unordered(unordered)),
    }
}

// The certificate of an assembly by its canonical order, or the verdict that is a no.
fn certification_by(
    alloc: Global,
    sys: &System,
    grid: &Grid,
    order: Sequence,
) -> Result<Certification, NoMemory>
    requires area { grid.now.area ≡ sys.now.area }
    requires ordered { IsWholeOrder sys.now grid.now.tiles order }
    ensures certified { IfOk result (IsCertification sys.now grid.now.tiles) }
    ensures types { IfOk result (CertifiesTypes sys.now) }
{
    let sides = inputs_of_grid(alloc, sys, &order, grid)?;
    certification_with(alloc, sys, grid, order, &sides)
}

// The same by the sides of the order's places too.
fn certification_with(
    alloc: Global,
    sys: &System,
    grid: &Grid,
    order: Sequence,
    sides: &SideSets,
) -> Result<Certification, NoMemory>
    requires ordered { IsWholeOrder sys.now grid.now.tiles order }
    requires sides { AreSidesOf sys.now order sides.now }
    ensures certified { IfOk result (IsCertification sys.now grid.now.tiles) }
    ensures types { IfOk result (CertifiesTypes sys.now) }
{
    match judge(sys, &order, sides) {
        Verdict::Yes => {
            let certificate = certificate_in_order(alloc, sys, order, sides)?;
            sys.recall_valid();
            certificate.recall_entries();
            Ok(Certification::Given(certificate))
        }
        refuted => Ok(Certification::Refuted(refuted)),
    }
}
