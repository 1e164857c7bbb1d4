// Where what was found is kept.
ghost use Rattle.std.specs.Prelude.{◌<◌, ◌≤◌};

// The slots of a small box, of a system of few types, of some, and of many; each a power of two.
const LEAST_SLOTS: usize = 64;

const FEW_SLOTS: usize = 256;

const SOME_SLOTS: usize = 1024;

const MANY_SLOTS: usize = 8192;

// What are few types and some.
const FEW_TYPES: u32 = 8;

const SOME_TYPES: u32 = 64;

// The sites of a box that need the least slots, and that need few.
const LEAST_SITES: u32 = 64;

const FEW_SITES: u32 = 1024;

// The number of slots for a system with so many types, in a box of so many sites.
pub(crate) fn slots_for(types: u32, sites: u32) -> usize
    ensures { 0 < result }
{
    if sites <= LEAST_SITES {
        LEAST_SLOTS
    } else if types <= FEW_TYPES || sites <= FEW_SITES {
        FEW_SLOTS
    } else if types <= SOME_TYPES {
        SOME_SLOTS
    } else {
        MANY_SLOTS
    }
}

// The slot of a key, where the slots up to this one are a power of two.
#[inline(always)]
#[tactic(auto, using(std::proofs::lemmas::Nat::and_le_r))]
pub(crate) fn slot_of(key: u64, last_slot: usize) -> usize
    ensures { result ≤ last_slot }
{
    (key.wrapping_mul(0x9e37_79b9_7f4a_7c15) >> 51) as usize & last_slot
}
