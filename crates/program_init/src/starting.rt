// The machine that a standard program begins with.
ghost use Rattle.std.specs.Prelude.{◌≡◌, ◌⊎◌, ◌<◌, ◌≤◌, ◌^◌, length, IfOk, IfErr};
ghost use Rattle.jam_codec.specs.Format.{Spells};
ghost use Rattle.blob_decode.specs.Program.{Program};
ghost use Rattle.program_init.specs.declared.refusal.StartRefusal.TheVariants.{ArgsTooLong, NoMemory};
ghost use Rattle.program_init.specs.Standard.{Standard, standard_program};
ghost use Rattle.program_init.specs.Read.{plain_parts, standard_with};
ghost use Rattle.program_init.specs.Refusal.{argument_limit, NotStarted};
ghost use Rattle.program_init.specs.FirstState.{first_machine};

use crate::decoding::read_standard;
use crate::layout::first_memory;
use crate::parts::Parts;
use crate::refusal::StartRefusal;
use crate::registers::{first_heap, first_registers};
use crate::standard::StandardProgram;
use blob_decode::Program;
use gas_ledger::{Ledger, Schedule};
use jam_codec::FileRefusal;
use pvm_step::Machine;
use std::alloc::{AllocError, Global};
use std::rc::Rc;

/// How many bytes of arguments a program takes at the most.
const ARGUMENT_LIMIT: usize = 1 << 24;

fn machine_of(
    alloc: Global,
    parts: &Parts<'_>,
    program: Rc<Program>,
    entry: u64,
    gas: u64,
    args: &[u8],
) -> Result<Machine, AllocError>
    requires { length args.now ≤ argument_limit }
    ensures { IfOk result (λ machine. machine ≡ first_machine (standard_with (plain_parts parts.now) program.value) entry gas args.now) }
{
    let memory = first_memory(alloc, parts, args)?;
    Ok(Machine {
        program,
        pc: entry,
        registers: first_registers(args),
        memory,
        heap: first_heap(parts),
        ledger: Ledger::new(gas),
        costs: Schedule::plain(),
    })
}

/// The machine of a standard program of these parts, whose code is this program: at the entry, with so much gas, the
/// arguments in its memory, and the plain schedule.
///
/// # Errors
/// `ArgsTooLong` exactly where there are more than 2^24 bytes of arguments; else `NoMemory`.
pub fn start_with(
    alloc: Global,
    parts: &Parts<'_>,
    program: Rc<Program>,
    entry: u64,
    gas: u64,
    args: &[u8],
) -> Result<Machine, StartRefusal>
    ensures machine { IfOk result (λ machine. machine ≡ first_machine (standard_with (plain_parts parts.now) program.value) entry gas args.now) }
    ensures fits { IfOk result (λ machine. length args.now ≤ argument_limit) }
    ensures refused { IfErr result (λ e. (e ≡ NoMemory) ⊎ ((e ≡ ArgsTooLong) × (argument_limit < length args.now))) }
{
    if args.len() > ARGUMENT_LIMIT {
        return Err(StartRefusal::ArgsTooLong);
    }
    Ok(machine_of(alloc, parts, program, entry, gas, args)?)
}

impl StandardProgram {
    // Its parts; the bytes of the code are not among them.
    fn parts(&self) -> Parts<'_>
        ensures { standard_with (plain_parts result) self.now.code ≡ self.now }
    {
        Parts {
            ro: &self.read_only,
            rw: &self.writable,
            code: &[],
            heap_pages: self.heap_pages,
            stack: self.stack,
        }
    }

    /// Its machine: at the entry, with so much gas, the arguments in its memory, and the plain schedule.
    ///
    /// # Errors
    /// `ArgsTooLong` exactly where there are more than 2^24 bytes of arguments; else `NoMemory`.
    pub fn start(
        &self,
        alloc: Global,
        entry: u64,
        gas: u64,
        args: &[u8],
    ) -> Result<Machine, StartRefusal>
        ensures machine { IfOk result (λ machine. machine ≡ first_machine self.now entry gas args.now) }
        ensures fits { IfOk result (λ machine. length args.now ≤ argument_limit) }
        ensures refused { IfErr result (λ e. (e ≡ NoMemory) ⊎ ((e ≡ ArgsTooLong) × (argument_limit < length args.now))) }
    {
        start_with(
            alloc,
            &self.parts(),
            self.program.clone()?,
            entry,
            gas,
            args,
        )
    }
}

/// The machine of the standard program that all the bytes spell: at the entry, with so much gas, the arguments in its
/// memory, and the plain schedule.
///
/// # Errors
/// `NotStandard` exactly where the bytes, those of the code among them, spell no standard program; else `ArgsTooLong`
/// exactly where there are more than 2^24 bytes of arguments. `NoMemory`.
pub fn start(
    alloc: Global,
    standard: &[u8],
    entry: u64,
    gas: u64,
    args: &[u8],
) -> Result<Machine, StartRefusal>
    ensures machine { IfOk result (λ machine. (s : Standard Program) × Spells standard_program s standard.now × (machine ≡ first_machine s entry gas args.now)) }
    ensures fits { IfOk result (λ machine. length args.now ≤ argument_limit) }
    ensures refused { IfErr result (NotStarted standard.now args.now) }
{
    let program = match read_standard(alloc, standard) {
        Ok(program) => program,
        Err(FileRefusal::Malformed { place }) => return Err(StartRefusal::NotStandard { place }),
        Err(FileRefusal::NoMemory) => return Err(StartRefusal::NoMemory),
    };
    program.start(alloc, entry, gas, args)
}
