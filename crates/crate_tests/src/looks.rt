//! What reads of the versions of `FOUR_BLOCKS` show, worked out by hand.
use versions::{ListId, LookSeat, Version};

/// Which of the four blocks are strong, and which of the three arcs are merger arcs.
pub struct Shown {
    strong: [bool; 4],
    mergers: [bool; 3],
}

/// Before any merger: blocks 0 and 2 are worth something.
pub const OPENING: Shown = Shown {
    strong: [true, false, true, false],
    mergers: [true, true, true],
};

/// After the merger over arc 0.
pub const FIRST: Shown = Shown {
    strong: [false, false, true, false],
    mergers: [false, false, true],
};

/// After those over arcs 0, 2 and 1: the pit is 1 and 2.
pub const LAST: Shown = Shown {
    strong: [false, true, true, false],
    mergers: [false, false, false],
};

/// Whether the version has these labels of four blocks.
fn has_labels<V: ListId>(version: &Version<V>, strong: &[bool; 4]) -> bool {
    if version.instance().graph().n() != 4 {
        return false;
    }
    for block in 0..4 {
        if version.is_strong(block) != strong[block as usize] {
            return false;
        }
    }
    true
}

/// Whether the version has these merger arcs of three, and none where there is no arc.
fn has_mergers<V: ListId>(version: &Version<V>, mergers: &[bool; 3]) -> bool {
    for arc in 0..3 {
        if version.is_merger(arc) != mergers[arc as usize] {
            return false;
        }
    }
    !version.is_merger(3)
}

/// Whether the version shows this.
fn is_shown<V: ListId>(version: &Version<V>, expected: &Shown) -> bool {
    has_labels(version, &expected.strong) && has_mergers(version, &expected.mergers)
}

/// Looks: whether there was a version, which showed this. The seat comes back.
pub fn look_shows<V: ListId>(seat: LookSeat<V>, expected: &Shown) -> (LookSeat<V>, bool) {
    looked_shows(seat.look(), expected)
}

/// Whether a look gave a version, which showed this. The seat comes back.
pub fn looked_shows<V: ListId>(
    looked: Result<Version<V>, LookSeat<V>>,
    expected: &Shown,
) -> (LookSeat<V>, bool) {
    match looked {
        Ok(version) => {
            let is_shown = is_shown(&version, expected);
            (version.leave(), is_shown)
        }
        Err(seat) => (seat, false),
    }
}
