// A name in an entry.
ghost use Rattle.std.specs.Prelude.{◌≡◌, ◌≤◌, ◌<◌, length, take, IfSome, IfNone};
ghost use Rattle.atam.specs.declared.limits.TheConstants.{LONGEST_NAME};

use std::marker::Model;

// A name, with zeros behind it. It stands in its entry, so it takes no memory of its own.
#[derive(Drop)]
pub struct ShortName {
    length: u8,
    bytes: [u8; 40],
}

impl Model for ShortName {
    ghost use Rattle.std.specs.Prelude.{◌≤◌, List, ℕ, take};

    ghost Value = { List ℕ };

    ghost view = { λ n. take n.length n.bytes };

    ghost invariant = { λ n. n.length ≤ 40 };
}

impl ShortName {
    #[inline(always)]
    pub fn of(name: &[u8]) -> ShortName
        requires { length name.now ≤ LONGEST_NAME }
        ensures { result ≡ name.now }
    {
        let mut bytes = [0; 40];
        bytes[..name.len()].copy_from_slice(name);
        ShortName {
            length: name.len() as u8,
            bytes,
        }
    }

    #[inline(always)]
    pub fn as_slice(&self) -> &[u8]
        ensures { result.now ≡ self.now }
    {
        &self.bytes[..usize::from(self.length)]
    }

    // The first sixteen bytes, and the name's length, where the name has no more.
    #[inline(always)]
    pub fn front(&self) -> Option<(&[u8; 16], usize)>
        ensures front { IfSome result (λ f. take f.1 f.0.now ≡ self.now) }
        ensures short { IfSome result (λ f. f.1 ≡ length self.now) }
        ensures within { IfSome result (λ f. f.1 ≤ 16) }
        ensures none { IfNone result (16 < length self.now) }
    {
        let length = usize::from(self.length);
        match self.bytes.first_chunk::<16>() {
            Some(front) if length <= 16 => Some((front, length)),
            _ => None,
        }
    }
}
