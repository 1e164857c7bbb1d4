// A schedule is read from its text.
ghost use Rattle.std.specs.Prelude.{[], ◌≡◌, ◌≤◌, true, IfOk, List, length};
ghost use Rattle.atam.specs.TileSystem.{TileSystem};
ghost use Rattle.tile_io.specs.Checks.{count_in};
ghost use Rattle.tile_io.specs.NextLine.{IsMark};
ghost use Rattle.tile_io.specs.Formats.{ReadsOrStops};
ghost use Rattle.atam.specs.declared.event.Event.{Event};
ghost use Rattle.seq_text.specs.ScheduleText.{schedule_format, ReadsEvents};
ghost use Rattle.seq_text.specs.Inner.Kinds.{action_row};

use crate::action::Action;
use atam::Event;
use std::alloc::Global;
use tile_io::{
    Cause, LineReader, LineStop, LineWords, MOST_INPUT, Mark, TextStop, read_count, read_text,
};
use tile_system::System;
use tile_text::{read_place, read_site};

/// Reads a schedule text to the end of the input, in time that grows with its length, where types
/// are found by a few comparisons of names each (`System::find_type`). Neither the scouts nor the
/// sites of its events need to be there.
pub fn read_events(
    alloc: Global,
    sys: &System,
    text: &[u8],
    from: Mark,
) -> Result<Vec<Event>, TextStop>
    requires short { length text.now ≤ MOST_INPUT }
    requires mark { IsMark text.now from }
    ensures read { ReadsOrStops (schedule_format sys.now) text.now from
        (λ events. ReadsEvents sys.now text.now from events.items) result }
    ensures count { IfOk result (λ events. length events.items ≤ length text.now) }
{
    let mut reader = ScheduleReader {
        system: sys,
        events: Vec::new(alloc),
    };
    read_text(&mut reader, text, from)?;
    Ok(reader.events)
}

// The events that were read so far.
#[derive(Drop)]
struct ScheduleReader<'a> {
    system: &'a System,
    events: Vec<Event>,
}

#[tactic(auto, unfolding(crate::specs::ScheduleText::schedule_table))]
impl<'a> LineReader for ScheduleReader<'a> {
    ghost use Rattle.std.specs.Prelude.{◌≡◌};
    ghost use Rattle.atam.specs.TileSystem.{TileSystem};
    ghost use Rattle.atam.specs.declared.event.Event.{Event};
    ghost use Rattle.seq_text.specs.ScheduleText.{schedule_table};
    ghost use Rattle.seq_text.specs.Inner.Kinds.{action_row};

    type Kind = Action;

    ghost Item = { Event };

    ghost Context = { TileSystem };

    ghost context = { λ r. r.system.now };

    ghost table = { schedule_table };

    ghost row = { action_row };

    ghost holds = { λ r events. r.events.items ≡ events };

    fn has_header(&self) -> bool {
        false
    }

    fn kind_of(&self, word: &[u8]) -> Option<Action> {
        Action::of(word)
    }

    fn has_words(&self, kind: Action, count: usize) -> bool {
        kind.has_words(count)
    }

    fn may_stand(&self, kind: Action) -> bool {
        match kind {
            Action::Look | Action::Claim | Action::Split | Action::Join => true,
        }
    }

    fn has_room(&self, kind: Action, _words: &LineWords) -> bool {
        match kind {
            Action::Look | Action::Claim | Action::Split | Action::Join => true,
        }
    }

    fn take_fields(&mut self, kind: Action, words: &LineWords) -> Result<bool, LineStop> {
        let event = read_event(self.system, kind, words)?;
        match self.events.push(event) {
            Ok(()) => Ok(false),
            Err(_) => Err(LineStop::NoMemory),
        }
    }

    fn is_complete(&self) -> bool {
        true
    }
}

// The event of a line of this keyword.
fn read_event(system: &System, action: Action, words: &LineWords) -> Result<Event, Cause>
    requires { (action_row system.now action).has_words (length words.now) ≡ true }
    ensures { (earlier : List Event) →
        result ≡ (action_row system.now action).fields earlier words.now }
{
    match action {
        Action::Look => read_look(words),
        Action::Claim => read_claim(system, words),
        Action::Split => read_split(words),
        Action::Join => read_join(words),
    }
}

fn read_look(words: &LineWords) -> Result<Event, Cause>
    requires { length words.now ≡ 4 }
    ensures { (system : TileSystem) →
        result ≡ (action_row system Action.Look).fields [] words.now }
{
    let who = read_scout(words.word(1))?;
    let site = read_site(words.word(2), words.word(3))?;
    Ok(Event::Look { who, site })
}

fn read_claim(system: &System, words: &LineWords) -> Result<Event, Cause>
    requires { length words.now ≡ 5 }
    ensures { result ≡ (action_row system.now Action.Claim).fields [] words.now }
{
    let who = read_scout(words.word(1))?;
    let name = words.word(4);
    let found = system.find_type(name);
    let place = read_place(words.word(2), words.word(3), name, found)?;
    Ok(Event::Claim {
        who,
        site: place.site,
        tile: place.tile,
    })
}

fn read_split(words: &LineWords) -> Result<Event, Cause>
    requires { length words.now ≡ 2 }
    ensures { (system : TileSystem) →
        result ≡ (action_row system Action.Split).fields [] words.now }
{
    let who = read_scout(words.word(1))?;
    Ok(Event::Split { who })
}

fn read_join(words: &LineWords) -> Result<Event, Cause>
    requires { length words.now ≡ 3 }
    ensures { (system : TileSystem) →
        result ≡ (action_row system Action.Join).fields [] words.now }
{
    let into = read_scout(words.word(1))?;
    let from = read_scout(words.word(2))?;
    Ok(Event::Join { into, from })
}

// The number of a scout, whether there is such a one or not.
fn read_scout(word: &[u8]) -> Result<u32, Cause>
    ensures { result ≡ count_in 0 4294967295 word.now }
{
    read_count(word, 0, u32::MAX)
}
