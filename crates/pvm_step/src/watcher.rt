// What is told of the instructions of a run.
ghost use Rattle.std.specs.Prelude.{List, [], ◌∷◌, ◌++◌};

use pvm_isa::Op;

/// An instruction of a run, whose cost is paid.
#[derive(Clone, Copy, Debug, PartialEq, Eq)]
pub struct PaidInstruction {
    /// Which one of the run it is, counted from 1.
    pub number: u64,
    /// The place where it stands.
    pub pc: u64,
    /// The opcode that acts there.
    pub op: Op,
    /// The gas that is left after its cost.
    pub gas: u64,
}

/// What is told of each instruction of a run, in their order, once its cost is paid and before it acts.
pub trait Watcher {
    ghost use Rattle.pvm_step.specs.declared.watcher.PaidInstruction.{PaidInstruction};

    /// It was told of these, in this order.
    ghost HasSeen: { Self → List PaidInstruction → Type 0 };

    /// Is told of the next one.
    fn see(&mut self, instruction: PaidInstruction)
        ensures { (seen : List PaidInstruction) → HasSeen self.old seen → HasSeen self.new (seen ++ (instruction ∷ [])) };
}

/// A watcher that keeps nothing.
#[derive(Drop)]
pub struct Blind;

impl Watcher for Blind {
    ghost use Rattle.pvm_step.specs.declared.watcher.PaidInstruction.{PaidInstruction};

    ghost HasSeen = { λ _ _. Unit {0} };

    #[inline(always)]
    fn see(&mut self, _instruction: PaidInstruction) {}
}
