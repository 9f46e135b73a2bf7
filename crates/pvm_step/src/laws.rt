// What holds of the histories of every program.
ghost use Rattle.std.specs.Prelude.{◌≡◌, ◌<◌, ◌≤◌, ◌+◌, ℕ, false, List, Contains, length, get_or, Some, None};
ghost use Rattle.std.specs.FinMap as fin;
ghost use Rattle.gas_ledger.specs.Schedule.{IsSchedule, plain};
ghost use Rattle.paged_memory.specs.PageMap.{byte};
ghost use Rattle.blob_decode.specs.Program.{Program, next};
ghost use Rattle.pvm_step.specs.Effect.{MachineState, Act, Grows, after, value_in, with_register};
ghost use Rattle.pvm_step.specs.Named.{register_of, stored_by, changes_memory, Touches, new_page};
ghost use Rattle.pvm_step.specs.History.{Moment, IsHistory, GasNeverRises, history, states, reached, answer, last_state, all_but_last, total_cost, gain};
ghost use Rattle.pvm_step.specs.Watched.{paid_instructions};
ghost use Rattle.pvm_step.specs.declared.exit.Exit.{Exit};
ghost use Rattle.pvm_step.specs.declared.exit.Exit.TheVariants.{OutOfGas};

/// The history of a machine:
/// - from each state with a schedule there is one history, and no other;
/// - it has at most gas + 1 steps, and the gas never rises in it;
/// - its states are those reached by so many steps, and the last is the answer;
/// - where a run ends otherwise than out of gas, what its steps cost and what is left is the gas that there was; where it
///   ends so, its steps cost more than that;
/// - with more gas it is the same as far as the smaller gas goes, with that much more gas left at each state;
/// - where a run ends otherwise than out of gas, more gas changes nothing but the gas that is left.
pub fn history_laws()
    ensures is_history { (p : Program) (m : Moment) → IsSchedule m.costs → IsHistory p m (history p m) }
    ensures no_other { (p : Program) (m : Moment) (ms ns : List Moment) → IsHistory p m ms → IsHistory p m ns → ms ≡ ns }
    ensures steps { (p : Program) (m : Moment) (ms : List Moment) → IsSchedule m.costs → IsHistory p m ms → length ms ≤ m.gas + 2 }
    ensures gas { (p : Program) (m : Moment) (ms : List Moment) → IsHistory p m ms → GasNeverRises ms }
    ensures states { (p : Program) (m d : Moment) (ms : List Moment) (n : ℕ) → IsHistory p m ms → n < length ms → get_or ms n d ≡ reached n p m }
    ensures last { (p : Program) (m : Moment) (ms : List Moment) → IsSchedule m.costs → IsHistory p m ms → last_state m ms ≡ answer p m }
    ensures paid { (p : Program) (m : Moment) (ms : List Moment) → IsHistory p m ms → ((last_state m ms).exit ≡ Some OutOfGas → ⊥) →
        total_cost p (all_but_last ms) + (last_state m ms).gas ≡ m.gas }
    ensures unpaid { (p : Program) (m : Moment) (ms : List Moment) → IsHistory p m ms → m.exit ≡ None → (last_state m ms).exit ≡ Some OutOfGas →
        m.gas < total_cost p (all_but_last ms) }
    ensures more_gas { (p : Program) (m : Moment) (more n : ℕ) → ((reached n p m).exit ≡ Some OutOfGas → ⊥) →
        reached n p (gain more m) ≡ gain more (reached n p m) }
    ensures gas_used { (p : Program) (m : Moment) (more : ℕ) → IsSchedule m.costs → ((answer p m).exit ≡ Some OutOfGas → ⊥) →
        answer p (gain more m) ≡ gain more (answer p m) }
{}

/// Runs of so many instructions:
/// - one that goes on where it paused is the run in one piece, and one that ended stays as it is;
/// - the instructions of one that did not end cost the gas that is gone, each at least 1, so that a run makes at most
///   as many as its gas; in the plain schedule each costs 1;
/// - with more than the gas it comes to the answer, and a watcher is told of all that are paid in the history.
pub fn run_laws()
    ensures resumed { (n k : ℕ) (p : Program) (m : Moment) → reached k p (reached n p m) ≡ reached (n + k) p m }
    ensures ended { (n k : ℕ) (p : Program) (m : Moment) (exit : Exit) → (reached n p m).exit ≡ Some exit →
        reached (n + k) p m ≡ reached n p m }
    ensures costs { (n : ℕ) (p : Program) (m : Moment) → (reached n p m).exit ≡ None → total_cost p (states n p m) + (reached n p m).gas ≡ m.gas }
    ensures bound { (n : ℕ) (p : Program) (m : Moment) → IsSchedule m.costs → (reached n p m).exit ≡ None → n + (reached n p m).gas ≤ m.gas }
    ensures plain { (n : ℕ) (p : Program) (m : Moment) → m.costs ≡ plain → (reached n p m).exit ≡ None → n + (reached n p m).gas ≡ m.gas }
    ensures answers { (n : ℕ) (p : Program) (m : Moment) → IsSchedule m.costs → m.gas < n → reached n p m ≡ answer p m }
    ensures told { (n : ℕ) (p : Program) (m : Moment) → IsSchedule m.costs → m.gas < n →
        paid_instructions 1 p (states n p m) ≡ paid_instructions 1 p (history p m) }
{}

/// What an instruction leaves:
/// - the registers that it does not name;
/// - the memory, unless it is a store or grows the heap;
/// - each byte that it does not store. Pages that the heap gets hold zeros, as they did without rights.
///
/// Where the heap grows, each page that the bytes it gets touch, and that had no rights, may be written and is 0. No
/// other page changes. Where it has not so much left, all stays as it was but the register, which gets 0.
pub fn effect_laws()
    ensures registers { (p : Program) (s : MachineState) (act : Act) (register : ℕ) → (register_of act ≡ Some register → ⊥) →
        value_in (after p s act).state register ≡ value_in s register }
    ensures memory { (p : Program) (s : MachineState) (act : Act) → changes_memory act ≡ false → (after p s act).state.memory ≡ s.memory }
    ensures bytes { (p : Program) (s : MachineState) (act : Act) (address : ℕ) → (Contains (stored_by act) address → ⊥) →
        byte (after p s act).state.memory address ≡ byte s.memory address }
    ensures lifts { (p : Program) (s : MachineState) (register amount page : ℕ) → 0 < amount → s.heap.next + amount ≤ s.heap.end → Touches s amount page →
        fin.get s.memory page ≡ None → fin.get (after p s (Grows register amount)).state.memory page ≡ Some new_page }
    ensures spares { (p : Program) (s : MachineState) (register amount page : ℕ) → (Touches s amount page → fin.get s.memory page ≡ None → ⊥) →
        fin.get (after p s (Grows register amount)).state.memory page ≡ fin.get s.memory page }
    ensures full { (p : Program) (s : MachineState) (register amount : ℕ) → 0 < amount → s.heap.end < s.heap.next + amount →
        (after p s (Grows register amount)).state ≡ record (with_register s register 0) { pc = next p s.pc } }
{}
