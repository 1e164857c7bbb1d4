// The types by the glues that interact with one of their sides.
ghost use Rattle.std.specs.Prelude.{◌≡◌, ◌<◌, ◌≤◌, ◌+◌, ◌^◌, length, slice_get, IfOk, IsTrue, OnOk, Some};
ghost use Rattle.atam.specs.declared.limits.TheConstants.{MOST_STRENGTH};
ghost use Rattle.atam.specs.declared.site.Side.{Side};
ghost use Rattle.atam.specs.declared.place.TypeId.{TypeId};
ghost use Rattle.atam.specs.TileSystem.{IsType, side_glue};
ghost use Rattle.atam.specs.Assembly.{interaction};
ghost use Rattle.type_index.specs.Indexes.{AreGlueFacts};
ghost use Rattle.type_index.specs.Meetings.{AreMeetings, Leads};
ghost use Rattle.type_index.specs.Partners.{ArePartners};
ghost use Rattle.type_index.specs.Inner.Cursors.{GoesBy, IsBehind, IsCursor};
ghost use Rattle.type_index.specs.Inner.Linking.{HasNoMeetings, IsFree, PutsMeeting, TakesPlace};

use crate::cursor::{Cursor, Way};
use crate::glue_table::{GlueKind, GlueTable};
use crate::partners::Partners;
use crate::reach::room_of;
use std::alloc::Global;
use std::marker::Model;
use tile_system::{GlueId, NoMemory, Side, System, TypeId};

// The most places of the lists of a side that have room for their types.
const MOST_PLACES: u32 = 4_194_304;

// The number in a free place, which no type has.
const NO_TILE: u16 = 65_535;

// A type that interacts with a glue, the strength, and the place of the next such type.
#[derive(Clone, Copy)]
pub(crate) struct Meeting {
    pub(crate) next: u32,
    pub(crate) tile: u16,
    pub(crate) strength: u8,
}

// What is in a free place.
const FREE: Meeting = Meeting {
    next: 0,
    tile: NO_TILE,
    strength: 0,
};

// For each glue that is listed the place of the first type that interacts with it on one side. The
// last place of each list has the number of types. A list is in one piece, in the order in which it
// is walked, as far as there was room for it.
pub(crate) struct MeetingLists {
    first: Vec<u32>,
    meetings: Vec<Meeting>,
}

impl Drop for MeetingLists {
    fn drop(self) {
        let MeetingLists {
            first: _first,
            meetings: _meetings,
        } = self;
    }
}

impl Model for MeetingLists {
    ghost use Rattle.type_index.specs.Meetings.{MeetingOrder};

    ghost Value = { MeetingOrder };

    ghost view = { λ l. record {
      first = l.first.items;
      meetings = l.meetings.items;
    } };
}

impl MeetingLists {
    // The lists of all types; none where no glues are paired.
    pub(crate) fn build(
        alloc: Global,
        sys: &System,
        side: Side,
        glues: &GlueTable,
        partners: &Partners,
    ) -> Result<MeetingLists, NoMemory>
        requires glues { AreGlueFacts sys.now glues.now }
        requires partners { ArePartners sys.now glues.now.kinds (length sys.now.glues)
            partners.now }
        ensures { IfOk result (AreMeetings sys.now side glues.now.kinds 0) }
    {
        if sys.pair_count() > 0 {
            return MeetingLists::filled(alloc, sys, side, glues, partners);
        }
        Ok(MeetingLists {
            first: Vec::new(alloc),
            meetings: Vec::new(alloc),
        })
    }

    // The same where glues are paired.
    fn filled(
        alloc: Global,
        sys: &System,
        side: Side,
        glues: &GlueTable,
        partners: &Partners,
    ) -> Result<MeetingLists, NoMemory>
        requires glues { AreGlueFacts sys.now glues.now }
        requires partners { ArePartners sys.now glues.now.kinds (length sys.now.glues)
            partners.now }
        ensures { IfOk result (AreMeetings sys.now side glues.now.kinds 0) }
    {
        sys.recall_valid();
        let count = sys.type_count();
        let mut lists = MeetingLists::with_room(alloc, sys, side, glues)?;
        for passed in 0..count {
            let tile = TypeId(count - 1 - passed);
            lists.pass(sys, side, tile, glues, partners)?;
        }
        Ok(lists)
    }

    // Lists without a type, each with a free place before its end for each type to come.
    fn with_room(
        alloc: Global,
        sys: &System,
        side: Side,
        glues: &GlueTable,
    ) -> Result<MeetingLists, NoMemory>
        requires glues { AreGlueFacts sys.now glues.now }
        ensures none { IfOk result (HasNoMeetings sys.now) }
        ensures few { IfOk result (λ l. length l.meetings ≤ 4194304) }
    {
        sys.recall_valid();
        let count = sys.glue_count();
        let room = room_of(alloc, sys, side, glues)?;
        let places = places_of(&room);
        let mut first = Vec::with_capacity(alloc, count as usize)?;
        let mut meetings = Vec::from_elem(alloc, FREE, places as usize)?;
        let mut end = 0;
        for number in 0..count {
            end = room[number as usize].saturating_add(end).min(places - 1);
            meetings[end as usize] = Meeting {
                tile: sys.type_count() as u16,
                ..FREE
            };
            first.push(end)?;
            end += 1;
        }
        Ok(MeetingLists { first, meetings })
    }

    // Puts a type first in the lists of all glues that interact with its side.
    fn pass(
        &mut self,
        sys: &System,
        side: Side,
        tile: TypeId,
        glues: &GlueTable,
        partners: &Partners,
    ) -> Result<(), NoMemory>
        requires glues { AreGlueFacts sys.now glues.now }
        requires partners { ArePartners sys.now glues.now.kinds (length sys.now.glues)
            partners.now }
        requires kind { IsType sys.now tile }
        requires lists { AreMeetings sys.now side glues.now.kinds (tile.0 + 1) self.old }
        requires first { length self.old.first ≡ length sys.now.glues }
        requires few { length self.old.meetings + 65537 < 2 ^ 32 }
        ensures lists { OnOk result (AreMeetings sys.now side glues.now.kinds tile.0 self.new) }
        ensures first { length self.new.first ≡ length sys.now.glues }
        ensures few { length self.new.meetings ≤ length self.old.meetings + 65537 }
    {
        match sys.side(tile, side) {
            Some(glue) => self.put(sys, side, tile, glue, glues, partners),
            None => Ok(()),
        }
    }

    // The same for a type that bears this glue there.
    fn put(
        &mut self,
        sys: &System,
        side: Side,
        tile: TypeId,
        glue: GlueId,
        glues: &GlueTable,
        partners: &Partners,
    ) -> Result<(), NoMemory>
        requires glues { AreGlueFacts sys.now glues.now }
        requires partners { ArePartners sys.now glues.now.kinds (length sys.now.glues)
            partners.now }
        requires kind { IsType sys.now tile }
        requires bears { side_glue sys.now tile side ≡ Some glue }
        requires lists { AreMeetings sys.now side glues.now.kinds (tile.0 + 1) self.old }
        requires first { length self.old.first ≡ length sys.now.glues }
        requires few { length self.old.meetings + 65537 < 2 ^ 32 }
        ensures lists { OnOk result (AreMeetings sys.now side glues.now.kinds tile.0 self.new) }
        ensures first { length self.new.first ≡ length sys.now.glues }
        ensures few { length self.new.meetings ≤ length self.old.meetings + 65537 }
    {
        sys.recall_valid();
        self.meet(sys, glues, glue, tile, glues.strength(sys, glue))?;
        for partner in partners.of(sys, glue) {
            self.meet(sys, glues, partner.glue, tile, partner.strength)?;
        }
        Ok(())
    }

    // Puts a type first in the list of a glue that has one, where they interact.
    #[inline(always)]
    fn meet(
        &mut self,
        sys: &System,
        glues: &GlueTable,
        glue: GlueId,
        tile: TypeId,
        strength: u32,
    ) -> Result<(), NoMemory>
        requires glues { AreGlueFacts sys.now glues.now }
        requires known { glue.0 < length sys.now.glues }
        requires first { length self.old.first ≡ length sys.now.glues }
        requires small { tile.0 < 65536 }
        requires weak { strength ≤ MOST_STRENGTH }
        requires few { length self.old.meetings < 2 ^ 32 }
        ensures puts { OnOk result (PutsMeeting glues.now.kinds glue tile strength self.old self.new) }
        ensures first { length self.new.first ≡ length self.old.first }
        ensures few { length self.new.meetings ≤ length self.old.meetings + 1 }
    {
        if strength == 0 || glues.kind(sys, glue) != GlueKind::Listed {
            return Ok(());
        }
        let behind = self.first[glue.0 as usize];
        let meeting = Meeting {
            next: behind,
            tile: tile.0 as u16,
            strength: strength as u8,
        };
        self.first[glue.0 as usize] = put_before(&mut self.meetings, behind, meeting)?;
        Ok(())
    }

    // A cursor at the first type of the list of a glue that has one.
    #[inline(always)]
    pub(crate) fn start(&self, sys: &System, side: Side, glues: &GlueTable, glue: GlueId) -> Cursor
        requires glues { AreGlueFacts sys.now glues.now }
        requires listed { slice_get glues.now.kinds glue.0 ≡ Some GlueKind.Listed }
        requires lists { AreMeetings sys.now side glues.now.kinds 0 self.now }
        ensures cursor { IsCursor sys.now side (Some glue) 0 result }
        ensures way { GoesBy sys.now side self.now.meetings (Some glue) result result.way }
    {
        sys.recall_valid();
        let most = glues.most(sys, glue);
        self.cursor(sys, side, glue, 0, self.first[glue.0 as usize], most)
    }

    // A cursor at the type at a place of the list of a glue.
    #[inline(always)]
    pub(crate) fn cursor(
        &self,
        sys: &System,
        side: Side,
        glue: GlueId,
        from: usize,
        place: u32,
        most: u32,
    ) -> Cursor
        requires leads { Leads sys.now side glue self.now.meetings from place }
        requires most { (t : TypeId) → interaction sys.now (side_glue sys.now t side) (Some glue) ≤ most }
        requires bound { most ≤ MOST_STRENGTH }
        ensures cursor { IsCursor sys.now side (Some glue) from result }
        ensures way { GoesBy sys.now side self.now.meetings (Some glue) result result.way }
        ensures meetings { result.way ≡ Way.Meetings }
        ensures most { result.most ≡ most }
    {
        sys.recall_valid();
        let meeting = self.meetings[place as usize];
        Cursor {
            at: meeting.tile as usize,
            strength: u32::from(meeting.strength),
            most,
            next: meeting.next,
            way: Way::Meetings,
        }
    }

    // Passes all types before a bound, along the list of a glue.
    #[inline(always)]
    pub(crate) fn pass_to(
        &self,
        sys: &System,
        side: Side,
        glue: GlueId,
        cursor: &mut Cursor,
        bound: usize,
    )
        requires within { bound ≤ length sys.now.types }
        requires before { cursor.old.at < bound }
        requires cursor { IsBehind sys.now side (Some glue) bound cursor.old }
        requires way { GoesBy sys.now side self.now.meetings (Some glue) cursor.old Way.Meetings }
        requires meetings { cursor.old.way ≡ Way.Meetings }
        ensures cursor { IsCursor sys.now side (Some glue) bound cursor.new }
        ensures way { GoesBy sys.now side self.now.meetings (Some glue) cursor.new cursor.new.way }
        ensures most { cursor.new.most ≡ cursor.old.most }
    {
        let mut on = self.cursor(sys, side, glue, cursor.at + 1, cursor.next, cursor.most);
        while on.at < bound {
            on = self.cursor(sys, side, glue, on.at + 1, on.next, on.most);
        }
        cursor.at = on.at;
        cursor.strength = on.strength;
        cursor.next = on.next;
    }
}

// The places of lists with this much room, each with its end, or the most that there may be.
fn places_of(room: &[u32]) -> u32
    ensures some { 0 < result }
    ensures few { result ≤ 4194304 }
{
    let mut places: u32 = 0;
    for types in room {
        places = places.saturating_add(*types).saturating_add(1);
    }
    places.clamp(1, MOST_PLACES)
}

// Puts a type into the place before another one, where that is free, and else behind all others.
#[inline(always)]
fn put_before(meetings: &mut Vec<Meeting>, behind: u32, meeting: Meeting) -> Result<u32, NoMemory>
    requires few { length meetings.old.items < 2 ^ 32 }
    ensures place { IfOk result (λ place. TakesPlace meetings.old.items place meeting meetings.new.items) }
    ensures few { length meetings.new.items ≤ length meetings.old.items + 1 }
{
    if behind > 0 && is_free(meetings, behind - 1) {
        meetings[behind as usize - 1] = meeting;
        return Ok(behind - 1);
    }
    let place = meetings.len() as u32;
    meetings.push(meeting)?;
    Ok(place)
}

// Whether a place is free.
#[inline(always)]
fn is_free(meetings: &[Meeting], place: u32) -> bool
    ensures { IsTrue result → IsFree meetings.now place }
{
    match meetings.get(place as usize) {
        Some(meeting) => meeting.tile == NO_TILE,
        None => false,
    }
}
