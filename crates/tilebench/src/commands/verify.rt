// `verify`: whether a certificate is good.
ghost use Rattle.std.specs.Prelude.{◌≡◌, ◌↔◌, ◌≤◌, List, length, IfOk};
ghost use Rattle.atam.specs.declared.place.Place.{Place};
ghost use Rattle.atam.specs.Assembly.{Fits};
ghost use Rattle.cert_check.specs.Certificates.{places_of};
ghost use Rattle.cert_check.specs.Judgement.{IsVerdict};
ghost use Rattle.cert_check.specs.Laws.{IsCertified};
ghost use Rattle.cert_text.specs.CertificateLines.{NamesKnownType, verified_line};
ghost use Rattle.cert_text.specs.CertificateText.{certificate_format};
ghost use Rattle.tilebench.specs.Commands.Verify.{is_verified};
ghost use Rattle.tilebench.specs.Inner.Gives.{AnswersFrom};
ghost use Rattle.tilebench.specs.Inner.Runs.{EndsCommand};
ghost use Rattle.tilebench.specs.Inner.Readings.{taken_or_faulty};
ghost use Rattle.tilebench.specs.Inner.CommandRows.{verify_row};

use crate::input::system_and_certificate;
use crate::resources::Resources;
use crate::room::{Reply, Room};
use crate::status::Ran;
use crate::stop::Stop;
use crate::telling::tell;
use cert_check::{CertVerdict, Certificate, verify};
use cert_text::print_cert_verdict;
use fan_out::WorkerCount;
use site_table::Grown;
use std::thread::Threads;
use tile_io::{Failed, Gate, Sink, Source};
use tile_system::{NoMemory, System};

/// The command.
#[derive(Clone, Copy)]
pub struct Verify {
    pub workers: WorkerCount,
}

impl Room for Verify {
    type Answer = Verified;

    ghost room_row = { λ room. verify_row room.workers };

    fn reads_input(&self) -> bool {
        true
    }

    ghost one_of_two = { λ room. taken_or_faulty certificate_format };
}

impl Verify {
    /// Runs the command on all that is left of a source, which it reads in blocks. Nothing is
    /// handed out.
    pub fn run<R: Threads + Sync, G: Gate, S: Source, K: Sink, E: Sink>(
        &self,
        resources: &Resources<'_, R, G>,
        source: &mut S,
        out: &mut K,
        err: &mut E,
    ) -> Ran
        ensures { EndsCommand S.left S.faults K.written K.faults E.written E.faults
            (verify_row self.now.workers)
            source.old source.new out.old out.new err.old err.new result }
    {
        tell(self.answer_from(resources, source), out, err)
    }

    // Its answer.
    fn answer_from<R: Threads + Sync, G: Gate, S: Source>(
        &self,
        resources: &Resources<'_, R, G>,
        source: &mut S,
    ) -> Result<(Verified, Option<Grown>), Stop>
        ensures answer { AnswersFrom S.left S.faults ⟦<Verified as Reply>⟧.yes
            ⟦<Verified as Reply>⟧.text ⟦<Verified as Reply>⟧.printable
            (verify_row self.now.workers) source.old source.new result }
        ensures later { S.faults source.old ≤ S.faults source.new }
    {
        let (sys, certificate) = system_and_certificate(resources.alloc, source)?;
        let verdict = verdict_by(resources, &sys, &certificate, self.workers)?;
        Ok((Verified { sys, verdict }, None))
    }
}

// The verdict on a certificate, by so many workers.
fn verdict_by<R: Threads + Sync, G: Gate>(
    resources: &Resources<'_, R, G>,
    sys: &System,
    certificate: &Certificate,
    workers: WorkerCount,
) -> Result<CertVerdict, NoMemory>
    requires { Fits sys.now (places_of certificate.now) }
    ensures judged { IfOk result (IsVerdict sys.now certificate.now) }
    ensures certified { IfOk result (λ verdict. verdict ≡ CertVerdict.Yes ↔
        ((s : List Place) × IsCertified sys.now certificate.now s)) }
    ensures types { IfOk result (NamesKnownType sys.now) }
{
    sys.recall_valid();
    certificate.recall_entries();
    let verdict = verify(
        resources.rt,
        resources.alloc,
        sys,
        certificate,
        workers.get(),
        resources.gate,
    )?;
    Ok(verdict)
}

/// The verdict on a certificate for a system.
pub struct Verified {
    pub sys: System,
    pub verdict: CertVerdict,
}

impl Drop for Verified {
    fn drop(self) {
        let Verified {
            sys: _sys,
            verdict: _verdict,
        } = self;
    }
}

impl Reply for Verified {
    ghost text = { λ verified. verified_line verified.sys verified.verdict };

    ghost yes = { λ verified. is_verified verified.verdict };

    ghost printable = { λ verified. NamesKnownType verified.sys verified.verdict };

    fn is_yes(&self) -> bool {
        matches!(self.verdict, CertVerdict::Yes)
    }

    fn print<K: Sink>(&self, out: &mut K) -> Result<(), Failed> {
        print_cert_verdict(&self.sys, &self.verdict, out)
    }
}
