//! A run of the counter of chunks whose answers a reader of the rule can foresee.
ghost use Rattle.std.specs.Prelude.{◌≡◌};

use crate::failures::{Failed, first_failure, pass_or_name};
use faults::Fault;
use proposals::{CounterId, DrawSeat, Draws, UnnamedDraws};
use std::alloc::Global;
use std::marker::Brand;
use std::test::Fail;

/// Two seats draw two chunks: what fails of that. The second None of a seat is no step.
fn failure_of_draws<L: CounterId>(
    draws: &Draws<L>,
    a: &mut DrawSeat<L>,
    b: &mut DrawSeat<L>,
) -> Failed {
    let chunks = draws.draw(a) == Some(0) && draws.draw(b) == Some(1);
    let first_ended = draws.draw(a).is_none() && draws.draw(a).is_none();
    let second_ended = draws.draw(b).is_none();
    first_failure(&[
        ("each chunk is drawn in turn", chunks),
        ("the first seat draws no more", first_ended),
        ("the second seat draws no more", second_ended),
    ])
}

/// What fails at a counter of two chunks and two seats that was just made, which then stands at 4.
fn failure_at<L: CounterId>(alloc: Global, unnamed: UnnamedDraws) -> Result<Failed, Fault>
    requires named { unnamed.table ≡ L.draws }
    requires two { unnamed.seats ≡ 2 }
{
    let (draws, mut seats) = Draws::<L>::new(alloc, unnamed)?;
    let failed = match seats.as_mut_slice() {
        [a, b] => failure_of_draws(&draws, a, b),
        _ => Some("there are two seats"),
    };
    let stands_at = draws.close(seats);
    let once = first_failure(&[("each seat was past the chunks once", stands_at == 4)]);
    Ok(failed.or(once))
}

#[test]
fn draws_of_two_seats(rt: HostRuntime) -> Result<(), Fail> {
    let unnamed = UnnamedDraws::new(rt.alloc(), 2, 2)?;
    pass_or_name(failure_at::<Brand>(rt.alloc(), unnamed))
}
