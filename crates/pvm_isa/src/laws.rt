// What holds of the table of opcodes.
ghost use Rattle.std.specs.Prelude.{◌≡◌, ◌<◌, ℕ, List, Some};
ghost use Rattle.pvm_isa.specs.declared.op.Op.{Op};
ghost use Rattle.pvm_isa.specs.Opcodes.{number_of, name_of, op_numbered, op_with_name};

/// Numbers and names tell opcodes apart:
/// - each opcode is the one with its number, and the one with its name;
/// - an opcode that is found by a number or a name has it;
/// - numbers are below 256, and no two opcodes share a number or a name.
pub fn opcode_laws()
    ensures numbered { (op : Op) → op_numbered (number_of op) ≡ Some op }
    ensures numbered_only { (n : ℕ) (op : Op) → op_numbered n ≡ Some op → number_of op ≡ n }
    ensures named { (op : Op) → op_with_name (name_of op) ≡ Some op }
    ensures named_only { (name : List ℕ) (op : Op) → op_with_name name ≡ Some op → name_of op ≡ name }
    ensures below { (op : Op) → number_of op < 256 }
    ensures one_number { (a b : Op) → number_of a ≡ number_of b → a ≡ b }
    ensures one_name { (a b : Op) → name_of a ≡ name_of b → a ≡ b }
{}
