// A list of types with room for all types of a system.
ghost use Rattle.std.specs.Prelude.{◌≡◌, ◌<◌, ◌+◌, ◌^◌, [], ◌∷◌, ◌++◌, length, slice_get, Some, IfOk};

use std::alloc::Global;
use std::marker::Model;
use tile_system::{NoMemory, System, TypeId};

/// Tile types, with room for all types of the system that the list was made for.
#[derive(Drop)]
pub struct TypeList {
    types: Vec<TypeId>,
}

impl Model for TypeList {
    ghost use Rattle.std.specs.Prelude.{◌≤◌, ◌<◌, ◌^◌, length};
    ghost use Rattle.std.specs.Vec.{vec_capacity};
    ghost use Rattle.attach_rule.specs.Candidates.{RoomyTypes};

    ghost Value = { RoomyTypes };

    ghost view = { λ l. record { types = l.types.items; room = vec_capacity l.types } };

    ghost invariant = { λ l. length l.types.items < 2 ^ 32 };
}

impl TypeList {
    /// An empty list.
    pub fn make(alloc: Global, sys: &System) -> Result<TypeList, NoMemory>
        ensures empty { IfOk result (λ list. list.types ≡ []) }
        ensures room { IfOk result (λ list. list.room ≡ length sys.now.types) }
    {
        Ok(TypeList {
            types: Vec::with_capacity(alloc, sys.type_count() as usize)?,
        })
    }

    pub fn len(&self) -> u32
        ensures { result ≡ length self.now.types }
    {
        self.types.len() as u32
    }

    pub fn get(&self, i: u32) -> TypeId
        requires { i < length self.now.types }
        ensures { slice_get self.now.types i ≡ Some result }
    {
        self.types[i as usize]
    }

    pub fn clear(&mut self)
        ensures empty { self.new.types ≡ [] }
        ensures room { self.new.room ≡ self.old.room }
    {
        self.types.clear();
    }

    /// There is room for one type more.
    pub fn push(&mut self, tile: TypeId)
        requires room { length self.old.types < self.old.room }
        requires small { length self.old.types + 1 < 2 ^ 32 }
        ensures types { self.new.types ≡ self.old.types ++ tile ∷ [] }
        ensures room { self.new.room ≡ self.old.room }
    {
        self.types.push_reserved(tile);
    }
}
