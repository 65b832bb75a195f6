//! The board: one word for each worker, and the seats that step on them.
//! It is made without a name, and named by a type; its calls stand in `ask`, `serve` and `settle`.
ghost use Rattle.std.specs.Prelude.{◌≡◌, ◌<◌, [], length, IfOk, IfErr, replicate};
ghost use Rattle.proposals.specs.Ledger.{opener, nothing_served, worker_ledgers};
ghost use Rattle.faults.specs.Refused.{no_memory, IsNoRoom};

use crate::board_id::BoardId;
use crate::seat_state::SeatState;
use crate::seats::{HolderSeat, WorkerSeat};
use crate::steps::{Asks, SplitWorkerSeat};
use atomic_table::{Seat, Table};
use faults::Fault;
use std::alloc::Global;
use std::marker::{Model, PhantomData};

type Cells = Table<(), SeatState, u64, Asks, Global>;

/// An asked arc stands in its word above this, and a claimed one above twice this.
pub(crate) const ASKED: u64 = 1 << 32;

/// The words on which workers ask and the holder answers. Workers are numbered from 1.
#[derive(Drop)]
pub struct Board<B: BoardId> {
    pub(crate) cells: Cells,
    pub(crate) arcs: u32,
    id: PhantomData<B>,
    ghost known: { arcs ≡ B.arcs },
    ghost named: { cells.shared.table_id ≡ B.board },
    ghost counted: { cells.shared.key ≡ cells.shared.table_id.words },
    ghost few: { cells.shared.table_id.words < 4294967296 },
}

/// A board that no type names yet. To a contract it is its table, which has one word for each worker.
#[derive(Drop)]
pub struct UnnamedBoard {
    cells: Cells,
    seat: Seat<(), SeatState>,
    workers: u32,
    ghost seated: { seat.table_id ≡ cells.shared.table_id },
    ghost first: { seat.me ≡ (opener workers, []) },
    ghost keyed: { cells.shared.key ≡ workers },
    ghost wide: { cells.shared.table_id.words ≡ workers },
}

impl Model for UnnamedBoard {
    ghost use Rattle.atomic_table.specs.Seated.{TableId, table_id_coded};

    ghost Value = { TableId };

    ghost coded = { table_id_coded };

    ghost view = { λ b. b.cells.shared.table_id };
}

impl UnnamedBoard {
    /// Takes the memory of a board's words, one for each worker, all idle.
    /// Errors: `NoMemory` where memory was refused, `NoSeat` where the table was.
    pub fn new(alloc: Global, workers: u32) -> Result<UnnamedBoard, Fault>
        ensures made { IfOk result (λ board. board.words ≡ workers) }
        ensures refused { IfErr result IsNoRoom }
    {
        let words = vec![in alloc; 0u64; workers as usize]?;
        let key = workers as u64;
        match Table::of_words(alloc, words.as_slice(), &key) {
            Ok((cells, seat)) => Ok(UnnamedBoard {
                cells,
                seat,
                workers,
            }),
            Err(_) => Err(Fault::no_seat()),
        }
    }
}

impl<B: BoardId> Board<B> {
    /// Returns the board under the name `B`, with a seat for each worker, in order, and the holder's, and room for asks of `arcs`
    /// arcs. Nothing was asked, answered or collected, nothing is claimed, and no word was read. Errors: `NoMemory` if memory for
    /// the seats was refused.
    pub fn new(
        alloc: Global,
        unnamed: UnnamedBoard,
        arcs: u32,
    ) -> Result<(Board<B>, Vec<WorkerSeat<B>>, HolderSeat<B>), Fault>
        requires board { unnamed ≡ B.board }
        requires arcs { arcs ≡ B.arcs }
        ensures workers { IfOk result (λ made. made.1.items ≡ worker_ledgers unnamed.words) }
        ensures holder { IfOk result (λ made. made.2.served ≡ replicate unnamed.words nothing_served) }
        ensures looks { IfOk result (λ made. made.2.looks ≡ []) }
        ensures refused { IfErr result (λ fault. fault ≡ no_memory) }
    {
        let UnnamedBoard {
            cells,
            mut seat,
            workers,
        } = unnamed;
        let claimed = vec![in alloc; 0u32; workers as usize]?;
        let mut seats = Vec::new(alloc);
        let mut cell = 0;
        while cell < workers {
            let theirs = cells.shared.split_seat::<SplitWorkerSeat>(&mut seat);
            seats.push(WorkerSeat {
                cell,
                ask: None,
                seat: theirs,
                id: PhantomData,
            })?;
            cell += 1;
        }
        let board = Board {
            cells,
            arcs,
            id: PhantomData,
        };
        let holder = HolderSeat {
            claimed,
            seat,
            id: PhantomData,
        };
        Ok((board, seats, holder))
    }

    /// How many arcs there are to ask for.
    pub fn arcs(&self) -> u32
        ensures { result ≡ B.arcs }
    {
        self.arcs
    }

    /// The number of workers.
    pub fn workers(&self, holder: &HolderSeat<B>) -> u32
        ensures { result ≡ length holder.now.served }
    {
        let _ = &holder.seat;
        self.cells.word_count() as u32
    }
}
