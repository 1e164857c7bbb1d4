// Names, by their numbers.
ghost use Rattle.std.specs.Prelude.{◌≡◌, ◌<◌, ◌^◌, ◌+◌, [], ◌∷◌, ◌++◌, length, position, bytes_eq, slice_get, Some, OnOk, OnErr};
ghost use Rattle.machine_text.specs.Inner.Marks.{mark_of, has_mark, mix};

use std::alloc::Global;
use std::marker::Model;
use tile_system::NoMemory;

// How many marks there are.
const MARKS: usize = 256;

/// Names, numbered from 0 in the order in which they came, beside a table of the first name of each
/// mark.
pub struct NameList {
    names: Vec<Vec<u8>>,
    firsts: [Option<u32>; MARKS],
}

impl Drop for NameList {
    fn drop(self) {
        let NameList {
            names: _names,
            firsts: _firsts,
        } = self;
    }
}

impl Model for NameList {
    ghost use Rattle.std.specs.Prelude.{List, ℕ, map, length, ◌<◌, ◌^◌};
    ghost use Rattle.machine_text.specs.Inner.Marks.{AreFirsts};

    ghost Value = { List (List ℕ) };

    ghost view = { λ l. map (λ name. name.items) l.names.items };

    ghost invariant = { λ l. (length l.names.items < 2 ^ 32)
        × AreFirsts (map (λ name. name.items) l.names.items) l.firsts };
}

impl NameList {
    /// No names.
    pub fn new(alloc: Global) -> NameList
        ensures { result ≡ [] }
    {
        NameList {
            names: Vec::new(alloc),
            firsts: [None; MARKS],
        }
    }

    /// The number of names.
    pub fn len(&self) -> u32
        ensures { result ≡ length self.now }
    {
        self.names.len() as u32
    }

    /// The name with this number.
    pub fn name(&self, number: u32) -> &[u8]
        requires { number < length self.now }
        ensures { slice_get self.now number ≡ Some result.now }
    {
        self.names[number as usize].as_slice()
    }

    /// The number of a name, in time that grows with the number of names, where others have its
    /// mark.
    pub fn find(&self, name: &[u8]) -> Option<u32>
        ensures { result ≡ position (bytes_eq name.now) self.now }
    {
        let Some(first) = self.first_marked(mark_of(name)) else {
            return None;
        };
        for number in first..self.len() {
            if name == self.name(number) {
                return Some(number);
            }
        }
        None
    }

    // The number of the first name with a mark, if a name has it.
    fn first_marked(&self, mark: u8) -> Option<u32>
        ensures { result ≡ position (has_mark mark) self.now }
    {
        self.firsts[usize::from(mark)]
    }

    /// Puts a name behind the others.
    pub fn push(&mut self, alloc: Global, name: &[u8]) -> Result<(), NoMemory>
        requires { length self.old + 1 < 2 ^ 32 }
        ensures ok { OnOk result (self.new ≡ self.old ++ name.now ∷ []) }
        ensures unchanged { OnErr result (self.new ≡ self.old) }
    {
        let mark = mark_of(name);
        let first = self.first_marked(mark).or(Some(self.len()));
        let name = name.to_vec(alloc)?;
        self.names.push(name)?;
        self.firsts[usize::from(mark)] = first;
        Ok(())
    }
}

// The mark of a name, which tells most names from each other.
#[tactic(auto, unfolding(crate::specs::Inner::Marks::mark_of))]
fn mark_of(name: &[u8]) -> u8
    ensures { result ≡ mark_of name.now }
{
    name.iter().fold(0, |mark, byte| mix(mark, *byte))
}

fn mix(mark: u8, byte: u8) -> u8
    ensures { result ≡ mix mark byte }
{
    ((u32::from(mark) * 31 + u32::from(byte)) % 256) as u8
}
