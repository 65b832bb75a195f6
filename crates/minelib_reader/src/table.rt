//! A table of blocks, with a place and as many attributes for each.
//! `blocks` reads one, and `column` takes one attribute of all blocks out of it.
ghost use Rattle.std.specs.Prelude.{◌≡◌, ◌<◌, ◌≤◌, ◌^◌, length};
ghost use Rattle.minelib_reader.specs.Number.{IsBounded};
ghost use Rattle.pit_model.specs.Size.{most_blocks};
ghost use Rattle.minelib_reader.specs.Table.{table, place_in, attribute_in, IsWhole};

use std::marker::Model;

/// A block model. The attributes of all blocks lie in one list, those of a block side by side.
#[derive(Drop)]
pub struct BlockTable {
    width: u32,
    places: Vec<(i32, i32, i32)>,
    attributes: Vec<i128>,
}

impl Model for BlockTable {
    ghost use Rattle.minelib_reader.specs.Table.{Table, table, IsWhole};

    ghost Value = { Table };

    ghost view = { λ t. table t.width t.places.items t.attributes.items };

    ghost invariant = { λ t. IsWhole t.width t.places.items t.attributes.items };
}

impl BlockTable {
    pub(crate) fn of_blocks(
        width: u32,
        places: Vec<(i32, i32, i32)>,
        attributes: Vec<i128>,
    ) -> BlockTable
        requires { IsWhole width places.items attributes.items }
        ensures { result ≡ table width places.items attributes.items }
    {
        BlockTable {
            width,
            places,
            attributes,
        }
    }

    /// The number of blocks, at most 4,194,304.
    pub fn len(&self) -> u32
        ensures value { result ≡ length self.now.places }
        ensures few { result ≤ most_blocks }
    {
        self.places.len() as u32
    }

    /// The number of attributes of each block, at most 64.
    pub fn width(&self) -> u32
        ensures value { result ≡ self.now.width }
        ensures narrow { result ≤ 64 }
    {
        self.width
    }

    /// The place of a block, along x, y and z.
    pub fn place(&self, id: u32) -> (i32, i32, i32)
        requires { id < length self.now.places }
        ensures { result ≡ place_in self.now id }
    {
        self.places[id as usize]
    }

    /// Attribute k of a block, in millionths.
    pub fn attribute(&self, id: u32, k: u32) -> i128
        requires block { id < length self.now.places }
        requires column { k < self.now.width }
        ensures value { result ≡ attribute_in self.now id k }
        ensures small { IsBounded (10 ^ 18) result }
    {
        self.attributes[id as usize * self.width as usize + k as usize]
    }
}
