// The argument forms.

/// Where the arguments of an instruction stand: its argument form.
#[derive(Clone, Copy, Debug, PartialEq, Eq)]
pub enum Form {
    /// None.
    F1,
    /// An immediate.
    F2,
    /// A register and a wide immediate.
    F3,
    /// Two immediates.
    F4,
    /// An offset.
    F5,
    /// A register and an immediate.
    F6,
    /// A register and two immediates.
    F7,
    /// A register, an immediate and an offset.
    F8,
    /// Two registers.
    F9,
    /// Two registers and an immediate.
    F10,
    /// Two registers and an offset.
    F11,
    /// Two registers and two immediates.
    F12,
    /// Three registers.
    F13,
}
