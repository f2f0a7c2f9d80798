//! The shards of a campaign.
ghost use Rattle.std.specs.Prelude.{◌≡◌, ◌<◌, ◌+◌, ◌⊎◌, IfSome, IfNone};
ghost use Rattle.tc_entry.specs.Shard.{IsShard, has_place};

use std::marker::Model;

/// One of the shards of a campaign. Contracts see its place among them, from 0, and how many there are.
#[derive(Clone, Copy, Debug, PartialEq, Eq)]
pub struct Shard {
    place: u32,
    shards: u32,
}

impl Model for Shard {
    ghost use Rattle.std.specs.Prelude.{◌<◌};
    ghost use Rattle.tc_entry.specs.Shard.{ShardView};

    ghost Value = { ShardView };

    ghost view = { λ s. record { place = s.place; shards = s.shards } };

    ghost invariant = { λ s. s.place < s.shards };

    ghost inverse = { λ v. record { place = v.place; shards = v.shards } };
}

impl Shard {
    /// The shard of this number, which counts from 1, of that many; none if no shard has it.
    pub fn new(number: u32, of: u32) -> Option<Shard>
        ensures some { IfSome result (λ s. IsShard s × (number ≡ s.place + 1) × (of ≡ s.shards)) }
        ensures none { IfNone result ((number ≡ 0) ⊎ (of < number)) }
    {
        if number < 1 || of < number {
            return None;
        }
        Some(Shard {
            place: number - 1,
            shards: of,
        })
    }

    /// Its place among the shards, from 0.
    pub fn place(self) -> u32
        ensures place { result ≡ self.place }
        ensures shard { IsShard self }
    {
        self.place
    }

    /// How many shards there are.
    pub fn shards(self) -> u32
        ensures shards { result ≡ self.shards }
        ensures shard { IsShard self }
    {
        self.shards
    }

    /// Whether the shard has the test case at this place, which counts from 0.
    pub fn has(self, place: usize) -> bool
        ensures { result ≡ has_place self place }
    {
        place as u64 % self.shards as u64 == self.place as u64
    }
}
