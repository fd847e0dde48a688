// How a step of the machine ends.

/// How a step ended.
#[derive(Clone, Copy, Debug, PartialEq, Eq)]
pub enum Stepped {
    /// An instruction was carried out, with no event.
    Ran,
    /// The device word at an address was read, with this answer.
    Read(u32, u32),
    /// A value was written to the device word at an address.
    Wrote(u32, u32),
    /// The device word at this address is to be read, and no answer is there. Nothing changed.
    Waiting(u32),
    /// The instruction is ECALL: the call has ended. Nothing changed.
    Halted,
    /// A rule was broken at this pc. Nothing changed.
    Trapped(Trap, u32),
}

/// Which rule a step would have broken. The tests come in this order: `FetchOutside`, `Illegal`,
/// `FetchMisaligned`, and then the three on memory, of which at most one applies.
#[derive(Clone, Copy, Debug, PartialEq, Eq)]
pub enum Trap {
    /// The word is none of the machine's instructions.
    Illegal,
    /// The pc is outside the code's bytes.
    FetchOutside,
    /// A jump, or a branch that is taken, to a target that is no multiple of 4.
    FetchMisaligned,
    /// An access outside RAM and the device windows.
    AccessOutside,
    /// An access in a device window that is not of four bytes at a multiple of 4.
    DeviceAccess,
    /// A store that touches a byte of the code.
    CodeWrite,
}
