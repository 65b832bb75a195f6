//! The counter of chunks: a table of one word, from which each seat draws numbers, each number once. It has one kind of step.
//! Workers draw the chunks that they go over; the owner of all seats closes it in the end.
ghost use Rattle.std.specs.Prelude.{◌≡◌, ◌<◌, ◌≤◌, [], length, IfOk, IfErr, MatchOption};
ghost use Rattle.proposals.specs.Drawn.{batch, whole, new_seats, Gets, GetsNone, all_drawn, IsEachBelowOnce};
ghost use Rattle.faults.specs.Refused.{no_memory, no_seat};

use crate::draw_ledger::{Batch, DrawLedger};
use crate::draw_seats::{CounterId, DrawSeat};
use crate::draw_steps::{Counts, Draw, JoinCounter, JoinDrawSeats, SplitDrawSeat};
use atomic_table::{Seat, Table};
use faults::Fault;
use std::alloc::Global;
use std::marker::{Model, PhantomData};

type Counter = Table<(), DrawLedger, Batch, Counts, Global>;

/// A counter from which seats draw the numbers of chunks, from 0. To a contract it is the number of its seats. It is not `Drop`, so
/// its owner must end it by `close`, with all its seats.
pub struct Draws<L: CounterId> {
    counter: Counter,
    seats: u32,
    id: PhantomData<L>,
    ghost named: { counter.shared.table_id ≡ L.draws },
    ghost wide: { counter.shared.table_id.words ≡ 1 },
    ghost slotless: { counter.shared.table_id.slots ≡ 0 },
    ghost keyed: { counter.shared.key.seats ≡ seats },
}

impl<L: CounterId> Model for Draws<L> {
    ghost use Rattle.std.specs.Prelude.{ℕ};

    ghost Value = { ℕ };

    ghost view = { λ d. d.seats };
}

/// A counter that no type names yet. To a contract it is its table, and how many chunks and seats it is for.
#[derive(Drop)]
pub struct UnnamedDraws {
    counter: Counter,
    seat: Seat<(), DrawLedger>,
    chunks: u32,
    seats: u32,
    ghost seated: { seat.table_id ≡ counter.shared.table_id },
    ghost first: { seat.me ≡ (whole (batch chunks seats), []) },
    ghost keyed: { counter.shared.key ≡ batch chunks seats },
    ghost wide: { counter.shared.table_id.words ≡ 1 },
    ghost slotless: { counter.shared.table_id.slots ≡ 0 },
}

impl Model for UnnamedDraws {
    ghost use Rattle.proposals.specs.DrawSeats.{NewCounter, new_counter, new_counter_coded};

    ghost Value = { NewCounter };

    ghost coded = { new_counter_coded };

    ghost view = { λ d. new_counter d.counter.shared.table_id d.chunks d.seats };
}

impl UnnamedDraws {
    /// Allocates a counter at 0, for `chunks` chunks and `seats` seats. Errors: `NoSeat` if the table was refused.
    pub fn new(alloc: Global, chunks: u32, seats: u32) -> Result<UnnamedDraws, Fault>
        ensures made { IfOk result (λ draws. (draws.chunks ≡ chunks) × (draws.seats ≡ seats)) }
        ensures refused { IfErr result (λ fault. fault ≡ no_seat) }
    {
        let key = Batch {
            chunks: chunks as u64,
            seats: seats as u64,
        };
        match Table::of_words(alloc, &[0], &key) {
            Ok((counter, seat)) => Ok(UnnamedDraws {
                counter,
                seat,
                chunks,
                seats,
            }),
            Err(_) => Err(Fault::no_seat()),
        }
    }
}

impl<L: CounterId> Draws<L> {
    /// The counter under the name `L`, with its seats, which have drawn nothing.
    /// Errors: `NoMemory` where memory for the seats was refused.
    pub fn new(alloc: Global, unnamed: UnnamedDraws) -> Result<(Draws<L>, Vec<DrawSeat<L>>), Fault>
        requires { unnamed.table ≡ L.draws }
        ensures counter { IfOk result (λ made. made.0 ≡ unnamed.seats) }
        ensures seats { IfOk result (λ made. made.1.items ≡ new_seats unnamed.chunks unnamed.seats) }
        ensures refused { IfErr result (λ fault. fault ≡ no_memory) }
    {
        let UnnamedDraws {
            counter,
            mut seat,
            chunks,
            seats,
        } = unnamed;
        let mut dealt = Vec::new(alloc);
        let mut done = 0;
        while done < seats {
            let theirs = counter.shared.split_seat::<SplitDrawSeat>(&mut seat);
            dealt.push(DrawSeat {
                chunks,
                ended: false,
                seat: theirs,
                id: PhantomData,
            })?;
            done += 1;
        }
        let draws = Draws {
            counter,
            seats,
            id: PhantomData,
        };
        Ok((draws, dealt))
    }

    /// Draws the next number. Some where it is below the number of chunks; None once the seat has drawn a number that is not.
    /// After None a seat makes no more steps.
    pub fn draw(&self, seat: &mut DrawSeat<L>) -> Option<u32>
        ensures { MatchOption result (GetsNone seat.old seat.new) (λ k. Gets k seat.old seat.new) }
    {
        if seat.ended {
            return None;
        }
        let found = self.counter.shared.fetch_add::<Draw>(&mut seat.seat, 0, 1);
        if found < u64::from(seat.chunks) {
            return Some(found as u32);
        }
        seat.ended = true;
        None
    }

    /// Ends the counter, with all its seats, and answers where it stands.
    /// Among what the seats have drawn, each number below it stands once, and no other number does.
    pub fn close(self, mut seats: Vec<DrawSeat<L>>) -> u64
        requires every { length seats.items ≡ self }
        ensures { IsEachBelowOnce result (all_drawn seats.items) }
    {
        let Draws {
            counter,
            seats: _,
            id: _,
        } = self;
        let mut all = counter.shared.load_new_seat::<JoinCounter>(0).1;
        while let Some(seat) = seats.pop() {
            counter
                .shared
                .join_seat::<JoinDrawSeats>(&mut all, seat.seat);
        }
        let closed = counter.close_with(all);
        let stands_at = closed.word(0);
        closed.free();
        stands_at
    }
}
