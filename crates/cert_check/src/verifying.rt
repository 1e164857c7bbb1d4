// A certificate is checked, by one worker or by several.
ghost use Rattle.std.specs.Prelude.{◌≡◌, ◌≤◌, ◌↔◌, ℕ, List, length, IfOk, IsTrue, MatchOption, Contains};
ghost use Rattle.atam.specs.Placements.{IsPartOf, SamePlacements};
ghost use Rattle.atam.specs.TileSystem.{TileSystem};
ghost use Rattle.atam.specs.Assembly.{Fits};
ghost use Rattle.fan_out.specs.Portions.{InARow};
ghost use Rattle.cert_check.specs.declared.entry.Entry.{Entry};
ghost use Rattle.cert_check.specs.Certificates.{places_of};
ghost use Rattle.cert_check.specs.Judgement.{IsFirstUnlisted, IsVerdict};
ghost use Rattle.cert_check.specs.Inner.Checks.{CanCheck, ChecksPortion, IsChecked};

use crate::checks::Checker;
use crate::listing::Listing;
use crate::looks::Looks;
use crate::{CertVerdict, Certificate};
use assembly::grid_of_seeds;
use fan_out::{Portion, WorkerCount, share_numbers};
use std::alloc::Global;
use std::thread::Threads;
use tile_io::Gate;
use tile_system::{NoMemory, Place, Placed, Site, System};
use type_index::TypeIndex;

/// Checks a certificate that fits the system, by so many workers, each in a thread of its own but
/// one. The answer is the same for any number of them. Each calls the gate once, and then looks
/// once at each entry of its portion and at the sites beside it, also where a seed is no entry's
/// place, which is told then. The time grows with the number of entries and with the number of sites of the
/// box. It takes memory for the number of an entry and a tile at each site of the box, for an index
/// of the types, and for each worker for what it has found before: a slot for each type, and those
/// of a `FacingCache`.
pub fn verify<R: Threads + Sync, G: Gate>(
    rt: &R,
    alloc: Global,
    sys: &System,
    cert: &Certificate,
    workers: u32,
    gate: &G,
) -> Result<CertVerdict, NoMemory>
    requires fits { Fits sys.now (places_of cert.now) }
    requires some { 1 ≤ workers }
    requires few { workers ≤ 16 }
    ensures { IfOk result (IsVerdict sys.now cert.now) }
{
    let listing = Listing::make(alloc, sys, cert)?;
    let found = check_listing(rt, alloc, sys, &listing, WorkerCount::new(workers), gate)?;
    match first_unlisted(sys, &listing) {
        Some(site) => Ok(CertVerdict::NoSeed(site)),
        None => Ok(found),
    }
}

// What is found in all entries, with the seeds in a grid and an index of the types.
fn check_listing<R: Threads + Sync, G: Gate>(
    rt: &R,
    alloc: Global,
    sys: &System,
    listing: &Listing<'_>,
    workers: WorkerCount,
    gate: &G,
) -> Result<CertVerdict, NoMemory>
    requires area { listing.now.area ≡ sys.now.area }
    requires fits { Fits sys.now (places_of listing.now.entries) }
    ensures { IfOk result (IsChecked sys.now listing.now.entries 0
        (length listing.now.entries)) }
{
    sys.recall_valid();
    let seeds = grid_of_seeds(alloc, sys)?;
    let types = TypeIndex::build(alloc, sys)?;
    let checker = Checker {
        sys,
        listing,
        seeds: &seeds,
        types: &types,
    };
    check_all(rt, alloc, &checker, workers, gate)
}

// The site of the first seed that is no entry's place.
fn first_unlisted(sys: &System, listing: &Listing<'_>) -> Option<Site>
    ensures { MatchOption result (IsPartOf sys.now.seeds (places_of listing.now.entries))
        (IsFirstUnlisted sys.now listing.now.entries) }
{
    for seed in sys.seeds() {
        if !is_listed(listing, seed) {
            return Some(seed.site);
        }
    }
    None
}

// Whether a seed is an entry's place.
fn is_listed(listing: &Listing<'_>, seed: &Place) -> bool
    ensures { IsTrue result ↔ Contains (places_of listing.now.entries) seed.now }
{
    listing.at(seed.site) == Some(seed.tile)
}

// What is found in all entries, by so many workers, each with a portion of them.
fn check_all<R: Threads + Sync, G: Gate>(
    rt: &R,
    alloc: Global,
    checker: &Checker<'_>,
    workers: WorkerCount,
    gate: &G,
) -> Result<CertVerdict, NoMemory>
    requires can { CanCheck checker.now }
    ensures { IfOk result (IsChecked checker.now.sys.now checker.now.listing.now.entries 0
        (length checker.now.listing.now.entries)) }
{
    let verdicts = share_numbers(
        rt,
        alloc,
        checker.listing.len(),
        workers,
        &move |entries: Portion| -> Result<CertVerdict, NoMemory>
            requires { CanCheck checker.now
                × (entries.start ≤ entries.end)
                × (entries.end ≤ length checker.now.listing.now.entries) }
            ensures { IfOk result (IsChecked checker.entry.now.sys.now
                checker.entry.now.listing.now.entries entries.start entries.end) }
        {
            gate.arrive(entries.worker);
            check_portion(alloc, checker, entries)
        },
    )?;
    first_fault(verdicts)
}

// The first fault that was found in portions that follow each other.
fn first_fault(verdicts: Vec<Result<CertVerdict, NoMemory>>) -> Result<CertVerdict, NoMemory>
    ensures { IfOk result (λ verdict. (sys : TileSystem) (c : List Entry) (end : ℕ) →
        InARow (ChecksPortion sys c) 0 0 end verdicts.items → IsChecked sys c 0 end verdict) }
{
    let mut first = CertVerdict::Yes;
    for verdict in verdicts {
        first = first.or(verdict?);
    }
    Ok(first)
}

// The first fault of the entries of a portion.
#[inline(never)]
fn check_portion(
    alloc: Global,
    checker: &Checker<'_>,
    entries: Portion,
) -> Result<CertVerdict, NoMemory>
    requires can { CanCheck checker.now }
    requires start { entries.start ≤ entries.end }
    requires end { entries.end ≤ length checker.now.listing.now.entries }
    ensures { IfOk result (IsChecked checker.now.sys.now checker.now.listing.now.entries
        entries.start entries.end) }
{
    let mut looks = Looks::make(alloc, checker.sys)?;
    for index in entries.start..entries.end {
        let entry = checker.listing.get(index);
        let verdict = checker.check_entry(&mut looks, entry);
        if verdict != CertVerdict::Yes {
            return Ok(verdict);
        }
    }
    Ok(CertVerdict::Yes)
}
