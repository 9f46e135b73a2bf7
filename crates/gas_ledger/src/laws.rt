// What holds of every schedule.
ghost use Rattle.std.specs.Prelude.{◌≤◌, ℕ};
ghost use Rattle.gas_ledger.specs.Schedule.{Schedule, IsSchedule, form_cost, call_cost};

/// Each instruction costs at least 1, and each host call at least 10.
pub fn schedule_laws()
    ensures form { (s : Schedule) (form : ℕ) → IsSchedule s → 1 ≤ form → form ≤ 13 → 1 ≤ form_cost s form }
    ensures call { (s : Schedule) (number : ℕ) → IsSchedule s → 10 ≤ call_cost s number }
{}
