// What holds of the definitions of the assembly.
ghost use Rattle.std.specs.Prelude.{◌≡◌, ℕ, length};
ghost use Rattle.pvm_asm.specs.Labels.{Labels};
ghost use Rattle.pvm_asm.specs.Assembly.{instruction_bytes, instruction_size};
ghost use Rattle.pvm_asm.specs.declared.instruction.Instruction.{Instruction};

/// An instruction has as many bytes as are counted for the places of labels, wherever it stands.
#[tactic(auto, using(crate::proofs::Sizes::instruction_length))]
pub fn size_law()
    ensures { (labels : Labels) (place : ℕ) (i : Instruction) → length (instruction_bytes labels place i) ≡ instruction_size i }
{}
