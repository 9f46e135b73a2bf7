// The opcode of a name.
ghost use Rattle.std.specs.Prelude.{◌≡◌, ◌≢◌, ◌<◌, MatchOption};
ghost use Rattle.pvm_isa.specs.declared.op.Op.{Op};
ghost use Rattle.pvm_isa.specs.Opcodes.{number_of, name_of, op_with_name};

use pvm_isa::{Op, name_of, op_of, opcode_laws};

// The opcode of a number, if it has this name.
fn op_if_named(number: u8, name: &[u8]) -> Option<Op>
    ensures { MatchOption result ((op : Op) → number_of op ≡ number → name_of op ≢ name.now) (λ op. name_of op ≡ name.now) }
{
    opcode_laws();
    let op = op_of(number)?;
    if name_of(op).as_bytes() == name {
        Some(op)
    } else {
        None
    }
}

// The opcode of a name; none for a name that no opcode has.
fn op_named(name: &[u8]) -> Option<Op>
    ensures { MatchOption result ((op : Op) → name_of op ≢ name.now) (λ op. name_of op ≡ name.now) }
{
    opcode_laws();
    for number in 0..256u16 {
        if let Some(op) = op_if_named(number as u8, name) {
            return Some(op);
        }
    }
    None
}

/// The opcode of a name.
pub fn op_with_name(name: &[u8]) -> Option<Op>
    ensures { result ≡ op_with_name name.now }
{
    opcode_laws();
    op_named(name)
}
