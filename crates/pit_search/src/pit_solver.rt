//! How the minimal pit of an instance is found, for those who search for other pits by it.
ghost use Rattle.std.specs.Prelude.{ℕ, Result, Ok, Err, IfOk, IfErr};
ghost use Rattle.std.specs.Global.{Vec as AnyVec};
ghost use Rattle.std.specs.Fn.{FnReturnsAt};
ghost use Rattle.faults.specs.declared.fault.Fault.{Fault as AnyFault};
ghost use Rattle.pit_model.specs.Mine.{Instance as AnyInstance};
ghost use Rattle.pit_model.specs.declared.direction.Direction.TheVariants.{Least};
ghost use Rattle.pit_model.specs.Pit.{ListsPit, no_blocks_fixed};

use faults::Fault;
use mine_graph::Instance;

/// Finds minimal pits: by one thread, by the parts of an instance, or by workers.
pub trait PitSolver {
    /// It may be called, and each pit that it finds is minimal.
    ghost FindsPits: { Self → Type 0 };

    /// What holds of an instance whose pit it found, such as that a budget of mergers sufficed.
    ghost Ends: { Self → AnyInstance → Type 0 };

    /// Why it finds no pit of an instance.
    ghost Refuses: { Self → AnyInstance → AnyFault → Type 0 };

    /// Returns the blocks of the minimal pit of an instance, rising.
    fn minimal_pit(&self, instance: &Instance) -> Result<Vec<u32>, Fault>
        requires { FindsPits self.now }
        ensures shown { IfOk result (λ pit. ListsPit Least instance.now no_blocks_fixed pit.items) }
        ensures within { IfOk result (λ _. Ends self.now instance.now) }
        ensures refused { IfErr result (λ e. Refuses self.now instance.now e) };
}

/// Finds minimal pits by a closure. A solver that starts threads comes as one: a method of an `impl` may not hand the bounds of its
/// block on to other threads, and a closure may.
#[derive(Drop)]
pub struct FnSolver<F> {
    pub solve: F,
}

impl<F: Fn(&Instance) -> Result<Vec<u32>, Fault>> PitSolver for FnSolver<F> {
    ghost FindsPits = { λ s. F.IsAlwaysCallable s.solve
        × ((mine : AnyInstance) (r : Result (AnyVec ℕ) AnyFault) → FnReturnsAt F.Fn s.solve mine r → IfOk r (λ pit. ListsPit Least mine no_blocks_fixed pit.items)) };

    ghost Ends = { λ s mine. (pit : AnyVec ℕ) × FnReturnsAt F.Fn s.solve mine (Ok pit) };

    ghost Refuses = { λ s mine fault. FnReturnsAt F.Fn s.solve mine (Err fault) };

    fn minimal_pit(&self, instance: &Instance) -> Result<Vec<u32>, Fault> {
        (self.solve)(instance)
    }
}
