//! Marks in an array of bytes: 1 for each block of a list, 0 for each other.
ghost use Rattle.std.specs.Prelude.{◌≡◌, ◌<◌, ℕ, Bool, length};
ghost use Rattle.std.specs.List.{All};
ghost use Rattle.pit_model.specs.Mine.{members};
ghost use Rattle.arrays.specs.Solved.{AreMarks};

/// Marks the blocks of a list, and no others.
pub fn write_marks(blocks: &[u32], marks: &mut [u8])
    requires { All (λ u. u < length marks.old) blocks.now }
    ensures { (set : ℕ → Bool) → blocks.now ≡ members (length marks.old) set → AreMarks (length marks.old) set marks.new }
{
    for mark in marks.iter_mut() {
        *mark = 0;
    }
    for &block in blocks {
        marks[block as usize] = 1;
    }
}
