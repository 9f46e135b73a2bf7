// What instructions and host calls cost.
ghost use Rattle.std.specs.Prelude.{◌≡◌, ◌≤◌, ◌<◌, ◌^◌, ◌↔◌, IsTrue, All, nat_le, if◌then◌else◌};
ghost use Rattle.std.specs.List.{list_all};
ghost use Rattle.gas_ledger.specs.Schedule.{IsSchedule, are_costs, plain, form_cost, call_cost};

use std::marker::Model;

/// What instructions cost, by their form, and host calls, by their number. Each form costs at
/// least 1, and each call at least 10.
#[derive(Clone, Copy, Debug, PartialEq, Eq)]
pub struct Schedule {
    forms: [u8; 13],
    calls: [u16; 28],
}

impl Model for Schedule {
    ghost use Rattle.gas_ledger.specs.Schedule.{Schedule, IsSchedule, coded_schedule};

    ghost Value = { Schedule };

    ghost coded = { coded_schedule };

    ghost view = { λ s. record { forms = s.forms; calls = s.calls } };

    ghost invariant = { λ s. IsSchedule (record { forms = s.forms; calls = s.calls }) };

    ghost inverse = { λ s. record { forms = s.forms; calls = s.calls } };
}

fn is_each_form_paid(forms: &[u8]) -> bool
    ensures paid { result ≡ list_all (nat_le 1) forms.now }
    ensures bytes { All (λ cost. cost < 2 ^ 8) forms.now }
{
    forms.iter().all(|cost| *cost >= 1)
}

fn is_each_call_paid(calls: &[u16]) -> bool
    ensures paid { result ≡ list_all (nat_le 10) calls.now }
    ensures bytes { All (λ cost. cost < 2 ^ 16) calls.now }
{
    calls.iter().all(|cost| *cost >= 10)
}

impl Schedule {
    /// Each form costs 1, and each call 10.
    pub fn plain() -> Schedule
        ensures { result ≡ plain }
    {
        Schedule {
            forms: [1; 13],
            calls: [10; 28],
        }
    }

    /// With these costs of the forms 1 to 13, and of the calls numbered 0 to 26 and then of any
    /// other; none where a form costs 0 or a call less than 10.
    pub fn of(forms: [u8; 13], calls: [u16; 28]) -> Option<Schedule>
        ensures { result ≡ (if are_costs forms calls then Some (record { forms = forms; calls = calls }) else None) }
    {
        if is_each_form_paid(&forms) && is_each_call_paid(&calls) {
            return Some(Schedule { forms, calls });
        }
        None
    }

    /// The costs of the forms, that of form 1 first.
    pub fn forms(&self) -> &[u8; 13]
        ensures value { result.now ≡ self.now.forms }
        ensures schedule { IsSchedule self.now }
    {
        &self.forms
    }

    /// The costs of the calls numbered 0 to 26, and then that of any other.
    pub fn calls(&self) -> &[u16; 28]
        ensures value { result.now ≡ self.now.calls }
        ensures schedule { IsSchedule self.now }
    {
        &self.calls
    }

    /// Whether each form costs 1.
    pub fn has_plain_forms(&self) -> bool
        ensures plain { IsTrue result ↔ (self.now.forms ≡ plain.forms) }
        ensures schedule { IsSchedule self.now }
    {
        self.forms == [1; 13]
    }

    /// What an instruction of a form costs. Forms are numbered from 1 on.
    #[inline]
    pub fn form_cost(&self, form: u8) -> u64
        requires low { 1 ≤ form }
        requires high { form ≤ 13 }
        ensures value { result ≡ form_cost self.now form }
        ensures paid { 1 ≤ result }
    {
        u64::from(self.forms[usize::from(form - 1)])
    }

    /// What a host call of a number costs.
    pub fn call_cost(&self, number: u64) -> u64
        ensures value { result ≡ call_cost self.now number }
        ensures paid { 10 ≤ result }
    {
        u64::from(self.calls[number.min(27) as usize])
    }
}
