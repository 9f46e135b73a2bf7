// The numbers of the forms of instructions.
ghost use Rattle.std.specs.Prelude.{◌≡◌, ◌≤◌};
ghost use Rattle.pvm_step.specs.History.{form_number};

use pvm_isa::Form;

/// The number of a form, from 1 on.
#[inline]
pub fn number_of_form(form: Form) -> u8
    ensures number { result ≡ form_number form }
    ensures low { 1 ≤ result }
    ensures high { result ≤ 13 }
{
    match form {
        Form::F1 => 1,
        Form::F2 => 2,
        Form::F3 => 3,
        Form::F4 => 4,
        Form::F5 => 5,
        Form::F6 => 6,
        Form::F7 => 7,
        Form::F8 => 8,
        Form::F9 => 9,
        Form::F10 => 10,
        Form::F11 => 11,
        Form::F12 => 12,
        Form::F13 => 13,
    }
}
