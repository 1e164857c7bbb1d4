// A batch is read from its text.
ghost use Rattle.std.specs.Prelude.{◌≡◌, ◌≤◌, List, length, IfOk};
ghost use Rattle.tile_io.specs.NextLine.{IsMark};
ghost use Rattle.tile_io.specs.Formats.{ReadsOrStops};
ghost use Rattle.tile_io.specs.Rest.{HasNoMore};
ghost use Rattle.job_board.specs.declared.job.Job.{Job as JobValue};
ghost use Rattle.job_board.specs.declared.limits.TheConstants.{MOST_JOBS, MOST_SITES};
ghost use Rattle.job_board.specs.declared.position.Position.TheVariants.{AtStart};
ghost use Rattle.job_board.specs.BatchLines.{batch_format};
ghost use Rattle.job_board.specs.BatchText.{ReadsBatch, ReadsBatchOrStops, sites_of};
ghost use Rattle.job_board.specs.Inner.Reading.{BeginsAt, FindsNext, FindsSystem};

use crate::batch_line::read_line;
use crate::job::Job;
use crate::limits::{MOST_JOBS, MOST_SITES};
use crate::position::{BatchItem, Position};
use std::alloc::Global;
use tile_io::{Cause, MOST_INPUT, Mark, TextFault, TextStop, check_rest, end_number};
use tile_system::System;
use tile_text::read_any;

/// Reads the jobs of a batch, up to the end of the text, in time that grows with its length.
pub fn read_batch(alloc: Global, text: &[u8], from: Mark) -> Result<Vec<Job>, TextStop>
    requires short { length text.now ≤ MOST_INPUT }
    requires mark { IsMark text.now from }
    ensures read { ReadsBatchOrStops text.now from
        (λ jobs. ReadsBatch text.now from jobs.items) result }
    ensures some { IfOk result (λ jobs. 1 ≤ length jobs.items) }
    ensures few { IfOk result (λ jobs. length jobs.items ≤ MOST_JOBS) }
{
    let mut mark = read_header(text, from)?;
    let mut jobs = Vec::new(alloc);
    let mut sites = 0;
    'jobs: loop {
        match read_next(alloc, text, mark, jobs.as_slice(), sites)? {
            None => return Ok(jobs),
            Some(found) => {
                let (job, next, count) = found;
                let Ok(()) = jobs.push(job) else {
                    return Err(TextStop::NoMemory);
                };
                mark = next;
                sites += count;
            }
        }
    }
}

// Reads the header, up to the mark behind it.
fn read_header(text: &[u8], from: Mark) -> Result<Mark, TextStop>
    requires short { length text.now ≤ MOST_INPUT }
    requires mark { IsMark text.now from }
    ensures { ReadsOrStops (batch_format AtStart) text.now from
        (λ start. BeginsAt text.now from start) result }
{
    let (_header, start) = read_line(text, from, Position::AtStart)?;
    Ok(start)
}

// The job behind these, with the mark behind it and the number of its sites; or none, where the
// text ends.
fn read_next(
    alloc: Global,
    text: &[u8],
    from: Mark,
    jobs: &[Job],
    sites: usize,
) -> Result<Option<(Job, Mark, usize)>, TextStop>
    requires short { length text.now ≤ MOST_INPUT }
    requires mark { IsMark text.now from }
    requires sites { sites ≡ sites_of jobs.now }
    requires few { sites ≤ MOST_SITES }
    ensures { FindsNext text.now from jobs.now result }
{
    match read_line(text, from, Position::Behind(jobs.len()))? {
        (Some(BatchItem::JobLine(choice)), behind) => {
            let (sys, next, count) = read_within(alloc, text, behind, sites)?;
            let choice = u64::from(choice);
            Ok(Some((Job { sys, choice }, next, count)))
        }
        (Some(BatchItem::Header), _) => unreachable!(),
        (None, end) => {
            if jobs.is_empty() {
                return Err(ends_early(end.line));
            }
            Ok(None)
        }
    }
}

// Reads a system behind the line of its job, whose box has few sites with so many others. The
// number of its sites stands beside it.
fn read_within(
    alloc: Global,
    text: &[u8],
    from: Mark,
    sites: usize,
) -> Result<(System, Mark, usize), TextStop>
    requires short { length text.now ≤ MOST_INPUT }
    requires mark { IsMark text.now from }
    requires few { sites ≤ MOST_SITES }
    ensures { (jobs : List JobValue) → sites ≡ sites_of jobs →
        FindsSystem text.now from jobs result }
{
    match check_rest(text, from) {
        Ok(()) => Err(ends_early(end_number(text, from))),
        Err(_more) => read_present(alloc, text, from, sites),
    }
}

// The same where the input does not end there.
fn read_present(
    alloc: Global,
    text: &[u8],
    from: Mark,
    sites: usize,
) -> Result<(System, Mark, usize), TextStop>
    requires short { length text.now ≤ MOST_INPUT }
    requires mark { IsMark text.now from }
    requires few { sites ≤ MOST_SITES }
    requires more { ¬ HasNoMore text.now from }
    ensures { (jobs : List JobValue) → sites ≡ sites_of jobs →
        FindsSystem text.now from jobs result }
{
    let (sys, to) = read_any(alloc, text, from)?;
    let area = sys.area();
    let count = area.width() as usize * area.height() as usize;
    if sites + count > MOST_SITES {
        return Err(TextStop::Fault(TextFault {
            line: to.line - 1,
            cause: Cause::TooMany,
        }));
    }
    Ok((sys, to, count))
}

// The input ends before the text does.
fn ends_early(line: u32) -> TextStop
    ensures { result ≡ TextStop.Fault (record { line = line; cause = Cause.NoEnd }) }
{
    TextStop::Fault(TextFault {
        line,
        cause: Cause::NoEnd,
    })
}
