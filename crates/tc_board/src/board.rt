//! The board: a word for each run, its keeper and the hands.
ghost use Rattle.std.specs.Prelude.{◌≡◌, ◌≤◌, IfOk};
ghost use Rattle.tc_entry.specs.declared.limits.TheConstants.{BEHAVIOURS};

use crate::hand::Hand;
use crate::keeper::Keeper;
use crate::rule::{BoardRule, UNBEGUN, View};
use crate::steps::SplitOff;
use atomic_table::Table;
use std::alloc::Global;
use std::marker::Model;
use tc_verdict::{NoMemory, Run, UserVerdict, rank};

/// The words that the hands and the keeper share. To a contract it is the name of its table.
#[derive(Drop)]
pub struct Board {
    pub(crate) table: Table<(), View, u64, BoardRule, Global>,
}

impl Model for Board {
    ghost use Rattle.atomic_table.specs.Seated.{TableId, table_id_coded};

    ghost Value = { TableId };

    ghost coded = { table_id_coded };

    ghost view = { λ b. b.table.shared.table_id };
}

impl Board {
    ghost use Rattle.tc_board.specs.Board.{new_hands, new_keeper};

    /// A board of n words, its keeper, and the hand of each run, in order. The word of run 0 is open with none and its
    /// hand has met it; every other word is unbegun.
    pub fn new(alloc: Global, n: u16) -> Result<(Board, Keeper, Vec<Hand>), NoMemory>
        requires some { 1 ≤ n }
        requires most { n ≤ BEHAVIOURS }
        ensures keeper { IfOk result (λ r. r.1 ≡ new_keeper r.0 n) }
        ensures hands { IfOk result (λ r. r.2.items ≡ new_hands r.0 0 n) }
    {
        let mut words = Vec::from_elem(alloc, UNBEGUN, n as usize)?;
        words[0] = rank(UserVerdict::None);
        let mut hands = Vec::with_capacity(alloc, n as usize)?;
        let (table, mut seat) = Table::<(), View, u64, BoardRule, Global>::of_words(
            alloc,
            words.as_slice(),
            &u64::from(n),
        )?;
        for run in 0..n {
            let split = table.shared.split_seat::<SplitOff>(&mut seat);
            hands.push(Hand {
                run: Run(run),
                seat: split,
            })?;
        }
        Ok((Board { table }, Keeper { seat }, hands))
    }
}
