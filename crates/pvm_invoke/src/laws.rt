// What holds of the turns of every run.
ghost use Rattle.std.specs.Prelude.{◌≡◌, ◌<◌, ◌≤◌, ◌+◌, ◌⊎◌, ◌↔◌, ℕ, true, false, None, List, length, take, drop, ◌++◌};
ghost use Rattle.gas_ledger.specs.Schedule.{IsSchedule};
ghost use Rattle.pvm_invoke.specs.HostCall.{HostEffect, IsHostEffect};
ghost use Rattle.pvm_invoke.specs.Turns.{Standing, IsUnitList, unit_list, units, advanced, stopped, has_ended, last_standing, left_by, longer, AllCallsAlike};

/// The unit list of a run:
/// - there is no other than one;
/// - where each call is one that a host may make, and each instruction costs something, there is one, and each unit takes
///   gas, so that it has at most as many as there is gas.
pub fn unit_laws()
    ensures no_other { (effect : HostEffect) (s : Standing) (us vs : List Standing) → IsUnitList effect s us → IsUnitList effect s vs → us ≡ vs }
    ensures is_list { (effect : HostEffect) (s : Standing) → IsHostEffect effect → IsSchedule s.machine.costs → IsUnitList effect s (unit_list effect s) }
    ensures bound { (effect : HostEffect) (s : Standing) (us : List Standing) → IsHostEffect effect → IsSchedule s.machine.costs → IsUnitList effect s us →
        length us + (last_standing s us).machine.gas ≤ s.machine.gas }
    ensures paid { (n : ℕ) (effect : HostEffect) (s : Standing) → IsHostEffect effect → IsSchedule s.machine.costs →
        length (units n effect s) + (advanced n effect s).machine.gas ≤ s.machine.gas }
{}

/// Turns:
/// - one that goes on where another paused is the two in one piece;
/// - a turn makes the first units of the unit list, and leaves the rest of it, whatever turns there were;
/// - it stands after the last unit that it made, or at the end where its fuel is for more than there are;
/// - it pauses exactly where it made as many units as its fuel is for and the last did not end the run;
/// - what the run leaves stays the same;
/// - more gas changes nothing but the gas that is left, as far as the smaller gas goes and each call does the same with
///   more gas, as all do where there is none.
pub fn turn_laws()
    ensures resumed { (n k : ℕ) (effect : HostEffect) (s : Standing) → advanced k effect (advanced n effect s) ≡ advanced (n + k) effect s }
    ensures in_pieces { (n k : ℕ) (effect : HostEffect) (s : Standing) → units n effect s ++ units k effect (advanced n effect s) ≡ units (n + k) effect s }
    ensures first { (n : ℕ) (effect : HostEffect) (s : Standing) (us : List Standing) → IsUnitList effect s us → units n effect s ≡ take n us }
    ensures rest { (n : ℕ) (effect : HostEffect) (s : Standing) (us : List Standing) → IsUnitList effect s us → IsUnitList effect (advanced n effect s) (drop n us) }
    ensures after { (n : ℕ) (effect : HostEffect) (s : Standing) (us : List Standing) → IsUnitList effect s us → n ≤ length us →
        advanced n effect s ≡ last_standing s (take n us) }
    ensures after_all { (n : ℕ) (effect : HostEffect) (s : Standing) (us : List Standing) → IsUnitList effect s us → length us < n →
        advanced n effect s ≡ stopped (last_standing s us) }
    ensures pauses { (n : ℕ) (effect : HostEffect) (s : Standing) → (has_ended (advanced n effect s).stage ≡ false) ↔
        ((length (units n effect s) ≡ n) × (has_ended (last_standing s (units n effect s)).stage ≡ false)) }
    ensures ends { (n : ℕ) (effect : HostEffect) (s : Standing) (us : List Standing) → IsUnitList effect s us → length us < n →
        has_ended (advanced n effect s).stage ≡ true }
    ensures leaves { (n : ℕ) (effect : HostEffect) (s : Standing) → IsHostEffect effect → IsSchedule s.machine.costs →
        left_by effect (advanced n effect s) ≡ left_by effect s }
    ensures more_gas { (more n : ℕ) (effect : HostEffect) (s : Standing) → length (units n effect s) ≡ n → AllCallsAlike more n effect s →
        advanced n effect (longer more s) ≡ longer more (advanced n effect s) }
    ensures has_left { (effect : HostEffect) (s : Standing) → IsHostEffect effect → IsSchedule s.machine.costs → has_ended (left_by effect s).stage ≡ true }
{}
