// Sources and sinks that tell nothing of their bytes, and move them as slowly as they may or fail.
// They count two faults for each call that fails, as if they had tried it twice.
ghost use Rattle.std.specs.Prelude.{None};

use tile_io::{Failed, Sink, Source};

pub const FAULTS_A_CALL: u64 = 2;

// Text that is given byte by byte. The call of one number fails, and all later ones too, also where
// the text had its end told before.
#[derive(Drop)]
pub struct Drip {
    text: &'static str,
    calls: usize,
    fails_from: usize,
    faults: u64,
}

impl Drip {
    pub const fn of(text: &'static str, fails_from: usize) -> Drip {
        Drip {
            text,
            calls: 0,
            fails_from,
            faults: 0,
        }
    }

    pub const fn faults(&self) -> u64 {
        self.faults
    }
}

impl Source for Drip {
    ghost left = { λ _. None };

    ghost faults = { λ source. source.faults };

    fn read(&mut self, buf: &mut [u8]) -> Result<usize, Failed> {
        let call = self.calls;
        self.calls = call.saturating_add(1);
        if call >= self.fails_from {
            self.faults = self.faults.saturating_add(FAULTS_A_CALL);
            return Err(Failed);
        }
        match (self.text.as_bytes().get(call), buf.first_mut()) {
            (Some(byte), Some(place)) => {
                *place = *byte;
                Ok(1)
            }
            _ => Ok(0),
        }
    }
}

// Newlines without an end.
#[derive(Drop)]
pub struct Endless;

impl Source for Endless {
    ghost left = { λ _. None };

    ghost faults = { λ _. 0 };

    fn read(&mut self, buf: &mut [u8]) -> Result<usize, Failed> {
        buf.fill(b'\n');
        Ok(buf.len())
    }
}

// It takes a byte a call, counts them, and fails where it holds so many.
#[derive(Drop)]
pub struct Narrow {
    taken: usize,
    room: usize,
    faults: u64,
}

impl Narrow {
    pub const fn of(room: usize) -> Narrow {
        Narrow {
            taken: 0,
            room,
            faults: 0,
        }
    }

    pub const fn taken(&self) -> usize {
        self.taken
    }
}

impl Sink for Narrow {
    ghost written = { λ _. None };

    ghost faults = { λ sink. sink.faults };

    fn write(&mut self, piece: &[u8]) -> Result<usize, Failed> {
        if self.taken >= self.room {
            self.faults = self.faults.saturating_add(FAULTS_A_CALL);
            return Err(Failed);
        }
        let count = piece.len().min(1);
        self.taken = self.taken.saturating_add(count);
        Ok(count)
    }
}
