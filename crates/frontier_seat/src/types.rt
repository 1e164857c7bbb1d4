// The index by which a scout looks types up.
ghost use Rattle.std.specs.Prelude.{◌≡◌, IfOk};
ghost use Rattle.type_index.specs.Indexes.{IsIndexOf};

use std::alloc::Global;
use std::marker::Model;
use tile_system::{NoMemory, System};
use type_index::TypeIndex;

#[derive(Drop)]
enum Holding<'i> {
    // Boxed, so that either is found behind a pointer, and no look has to ask which.
    Own(Box<TypeIndex>),
    Lent(&'i TypeIndex),
}

// An index of types, which is the scout's own or lent to it. Contracts see the index.
pub(crate) struct Types<'i> {
    holding: Holding<'i>,
}

impl<'i> Drop for Types<'i> {
    fn drop(self) {
        let Types { holding: _holding } = self;
    }
}

impl<'i> Model for Types<'i> {
    ghost use Rattle.type_index.specs.Indexes.{TypeLists};
    ghost use Rattle.frontier_seat.specs.Inner.Types.{index_in};

    ghost Value = { TypeLists };

    ghost view = { λ t. index_in t.holding };
}

impl<'i> Types<'i> {
    pub(crate) fn build(alloc: Global, sys: &System) -> Result<Types<'i>, NoMemory>
        ensures { IfOk result (IsIndexOf sys.now) }
    {
        let index = Box::new(alloc, TypeIndex::build(alloc, sys)?)?;
        Ok(Types {
            holding: Holding::Own(index),
        })
    }

    pub(crate) fn lent(index: &'i TypeIndex) -> Types<'i>
        ensures { result ≡ index.now }
    {
        Types {
            holding: Holding::Lent(index),
        }
    }

    #[inline(always)]
    pub(crate) fn index(&self) -> &TypeIndex
        ensures { result.now ≡ self.now }
    {
        match &self.holding {
            Holding::Own(index) => index,
            Holding::Lent(index) => index,
        }
    }
}
