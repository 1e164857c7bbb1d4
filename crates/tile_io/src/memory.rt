// Sources and sinks over memory. They tell their bytes, and fail at the calls that they are told to
// fail at.
ghost use Rattle.std.specs.Prelude.{◌≡◌, ◌↔◌, ◌⊎◌, ◌<◌, ◌≤◌, ◌+◌, ◌-◌, ◌++◌, [], Some, List, ℕ, min, take, drop, length, vec_capacity, IfOk, IfErr, OnErr, IsErr, IsTrue};
ghost use Rattle.std.specs.Io.{ReadsAtMost, WritesAtMost};
ghost use Rattle.std.specs.Io.KnownBytes.{ReadConsumes, WriteAppends};
ghost use Rattle.tile_io.specs.Faults.{HasCause, TakesSome, KeepsRest, next_count};
ghost use Rattle.tile_io.specs.Memory.{MemoryInput, MemoryOutput, FailsAt, IsFullFor};

use crate::{Failed, Sink, Source};
use std::alloc::Global;
use std::marker::Model;

/// A source over bytes in memory.
pub struct MemorySource {
    bytes: Vec<u8>,
    at: usize,
    most: usize,
    fails: Vec<u32>,
    calls: u64,
    faults: u64,
}

impl Drop for MemorySource {
    fn drop(self) {
        let MemorySource {
            bytes: _bytes,
            at: _at,
            most: _most,
            fails: _fails,
            calls: _calls,
            faults: _faults,
        } = self;
    }
}

impl Model for MemorySource {
    ghost Value = { MemoryInput };

    ghost view = { λ s. record {
      left = drop s.at s.bytes.items;
      most = s.most;
      fails = s.fails.items;
      calls = s.calls;
      faults = s.faults;
    } };

    ghost invariant = { λ s. (s.at ≤ length s.bytes.items) × (1 ≤ s.most) };
}

impl MemorySource {
    /// Each call gives at most `most` bytes, and the calls whose numbers (from 0) stand in `fails`
    /// fail.
    pub fn make(bytes: Vec<u8>, most: usize, fails: Vec<u32>) -> MemorySource
        requires { 1 ≤ most }
        ensures { result ≡ record {
          left = bytes.items;
          most = most;
          fails = fails.items;
          calls = 0;
          faults = 0;
        } }
    {
        MemorySource {
            bytes,
            at: 0,
            most,
            fails,
            calls: 0,
            faults: 0,
        }
    }
}

impl Source for MemorySource {
    ghost left = { λ s. Some s.left };

    ghost faults = { λ s. s.faults };

    fn read(&mut self, buf: &mut [u8]) -> Result<usize, Failed>
        ensures bound { ReadsAtMost result buf.new }
        ensures bytes { ReadConsumes (Some self.old.left) (Some self.new.left) result buf.new }
        ensures rest { KeepsRest (Some self.old.left) result buf.old buf.new }
        ensures cause { HasCause ⟦<MemorySource as Source>⟧.faults self.old self.new result }
        ensures fails { IsErr result ↔ FailsAt self.old.fails self.old.calls }
        ensures count { IfOk result (λ n.
            n ≡ min (min self.old.most (length buf.new)) (length self.old.left)) }
        ensures taken { IfOk result (λ n. self.new ≡ record self.old {
          left = drop n self.old.left;
          calls = next_count self.old.calls;
        }) }
        ensures counted { OnErr result (self.new ≡ record self.old {
          calls = next_count self.old.calls;
          faults = next_count self.old.faults;
        }) }
    {
        let call = self.calls;
        self.calls = call.saturating_add(1);
        if fails_at(&self.fails, call) {
            self.faults = self.faults.saturating_add(1);
            return Err(Failed);
        }
        let left = &self.bytes[self.at..];
        let count = self.most.min(buf.len()).min(left.len());
        put_front(left, buf, count);
        self.at += count;
        Ok(count)
    }
}

// The first `count` bytes of `from`, at the front of `buf`.
fn put_front(from: &[u8], buf: &mut [u8], count: usize)
    requires given { count ≤ length from.now }
    requires room { count ≤ length buf.old }
    ensures front { take count buf.new ≡ take count from.now }
    ensures rest { drop count buf.new ≡ drop count buf.old }
{
    buf[..count].copy_from_slice(&from[..count]);
}

// Whether the call of this number fails.
fn fails_at(fails: &[u32], call: u64) -> bool
    ensures { IsTrue result ↔ FailsAt fails.now call }
{
    match u32::try_from(call) {
        Ok(number) => fails.contains(&number),
        Err(_) => false,
    }
}

/// Want of memory for the room of a sink.
#[derive(Clone, Copy, Debug, PartialEq, Eq)]
pub struct NoRoom;

/// A sink into memory, whose room is taken when it is made.
pub struct MemorySink {
    bytes: Vec<u8>,
    room: usize,
    most: usize,
    fails: Vec<u32>,
    calls: u64,
    faults: u64,
}

impl Drop for MemorySink {
    fn drop(self) {
        let MemorySink {
            bytes: _bytes,
            room: _room,
            most: _most,
            fails: _fails,
            calls: _calls,
            faults: _faults,
        } = self;
    }
}

impl Model for MemorySink {
    ghost Value = { MemoryOutput };

    ghost view = { λ s. record {
      written = s.bytes.items;
      room = s.room;
      most = s.most;
      fails = s.fails.items;
      calls = s.calls;
      faults = s.faults;
    } };

    ghost invariant = { λ s. (length s.bytes.items ≤ s.room) × (s.room ≤ vec_capacity s.bytes)
        × (1 ≤ s.most) };
}

impl MemorySink {
    /// Each call takes at most `most` bytes. A call whose number (from 0) stands in `fails` fails,
    /// and so does one that finds no room for any of its piece.
    pub fn make(
        alloc: Global,
        room: usize,
        most: usize,
        fails: Vec<u32>,
    ) -> Result<MemorySink, NoRoom>
        requires { 1 ≤ most }
        ensures { IfOk result (λ sink. sink ≡ record {
          written = [];
          room = room;
          most = most;
          fails = fails.items;
          calls = 0;
          faults = 0;
        }) }
    {
        match Vec::with_capacity(alloc, room) {
            Ok(bytes) => Ok(MemorySink {
                bytes,
                room,
                most,
                fails,
                calls: 0,
                faults: 0,
            }),
            Err(_) => Err(NoRoom),
        }
    }

    /// The bytes that were written.
    pub fn bytes(&self) -> &[u8]
        ensures { result.now ≡ self.now.written }
    {
        &self.bytes
    }
}

impl Sink for MemorySink {
    ghost written = { λ s. Some s.written };

    ghost faults = { λ s. s.faults };

    fn write(&mut self, piece: &[u8]) -> Result<usize, Failed>
        ensures bound { WritesAtMost result piece.now }
        ensures some { TakesSome result piece.now }
        ensures bytes { WriteAppends (Some self.old.written) (Some self.new.written) result
            piece.now }
        ensures cause { HasCause ⟦<MemorySink as Sink>⟧.faults self.old self.new result }
        ensures fails { IsErr result
            ↔ (FailsAt self.old.fails self.old.calls ⊎ IsFullFor self.old piece.now) }
        ensures count { IfOk result (λ n. n ≡ min (min self.old.most (length piece.now))
            (self.old.room - length self.old.written)) }
        ensures taken { IfOk result (λ n. self.new ≡ record self.old {
          written = self.old.written ++ take n piece.now;
          calls = next_count self.old.calls;
        }) }
        ensures counted { OnErr result (self.new ≡ record self.old {
          calls = next_count self.old.calls;
          faults = next_count self.old.faults;
        }) }
    {
        let call = self.calls;
        self.calls = call.saturating_add(1);
        let room = self.room - self.bytes.len();
        if fails_at(&self.fails, call) || (room == 0 && !piece.is_empty()) {
            self.faults = self.faults.saturating_add(1);
            return Err(Failed);
        }
        let count = self.most.min(piece.len()).min(room);
        put_end(&mut self.bytes, &piece[..count]);
        Ok(count)
    }
}

// The piece at the end of the bytes, whose room is reserved.
fn put_end(bytes: &mut Vec<u8>, piece: &[u8])
    requires { length bytes.old.items + length piece.now ≤ vec_capacity bytes.old }
    ensures added { bytes.new.items ≡ bytes.old.items ++ piece.now }
    ensures reserved { vec_capacity bytes.old ≤ vec_capacity bytes.new }
{
    bytes.extend_from_slice(piece).unwrap();
}
