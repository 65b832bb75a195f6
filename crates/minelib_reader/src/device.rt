//! What the readers of this crate read from, and what the writers of the program write to.
//! `input` and `output` have an implementation over memory and one over a stream of the system each.
ghost use Rattle.std.specs.Prelude.{◌≡◌, ◌<◌, ◌^◌, ℕ, List, length, Option, None, Ok, IsOk, IsErr};
ghost use Rattle.std.specs.Io.KnownBytes.{Keeps, WriteAppends};
ghost use Rattle.minelib_reader.specs.Device.{Progress, ReadGives, WriteTakes};

use counters::Counters;

/// A call of the device failed, and was counted.
#[derive(Clone, Copy, Debug, PartialEq, Eq)]
pub struct DeviceFailed;

/// A source of bytes. It gives at most its allowance, so reading ends.
pub trait InBytes {
    /// The bytes read so far, the failures so far, and how many bytes may still be read.
    ghost progress: { Self → Progress };

    /// No byte is left to be read.
    ghost IsAtEnd: { Self → Type 0 };

    /// The whole text, where it is known beforehand: what was read and what is still to come. Of a file it is not.
    ghost known_text: { Self → Option (List ℕ) } = { λ _. None };

    /// It is known that no read fails from here on, but one past the allowance. Of a file it is not.
    ghost IsSound: { Self → Type 0 } = { λ _. ⊥ };

    /// Reads the next bytes into the front of the buffer, and answers how many. None come only at the end.
    fn read(&mut self, buf: &mut [u8]) -> Result<usize, DeviceFailed>
        requires countable { (progress self.old).failures < 2 ^ 63 }
        requires room { 0 < length buf.old }
        ensures gives { ReadGives (progress self.old) (progress self.new) result buf.new }
        ensures end { result ≡ Ok 0 → IsAtEnd self.new }
        ensures known { Keeps (known_text self.old) (known_text self.new) }
        ensures sound { IsSound self.old → (IsErr result → (progress self.old).allowance ≡ 0) × IsSound self.new };

    /// Returns the number of bytes that the source holds in all, if it says so; otherwise 0. No clause speaks of it.
    fn size(&self) -> u64 {
        0
    }

    /// What counts over the run that reads from here. No clause speaks of it.
    fn counters(&self) -> Counters {
        Counters::none()
    }
}

/// A taker of bytes.
pub trait OutBytes {
    /// The bytes written so far and the failures so far. The allowance says nothing here.
    ghost progress: { Self → Progress };

    /// All that the device holds, where it is known. Of a file it is not.
    ghost known_content: { Self → Option (List ℕ) } = { λ _. None };

    /// It is known that no write fails from here on. Of a file it is not.
    ghost IsSound: { Self → Type 0 } = { λ _. ⊥ };

    /// Writes bytes from the front of the text, and answers how many: at least one of a text that isn't empty.
    fn write(&mut self, text: &[u8]) -> Result<usize, DeviceFailed>
        requires countable { (progress self.old).failures < 2 ^ 63 }
        ensures takes { WriteTakes (progress self.old) (progress self.new) result text.now }
        ensures known { WriteAppends (known_content self.old) (known_content self.new) result text.now }
        ensures sound { IsSound self.old → IsOk result × IsSound self.new };
}
