// The lines on standard error that need no more than the status.

ghost use Rattle.std.specs.Prelude.{◌≡◌};
ghost use Rattle.br_top.specs.Lines.{usage_line, read_fault_line, write_fault_line, no_memory_line};

/// The line on standard error for words that are no command.
pub fn usage_line() -> &'static [u8]
    ensures { result.now ≡ usage_line }
{
    b"brc: usage: compile, print, list, run, interp, firmware, judge, sim or gen N\n"
}

/// The line for an input that failed.
pub(crate) fn read_fault_line() -> &'static [u8]
    ensures { result.now ≡ read_fault_line }
{
    b"brc: read fault\n"
}

/// The line for an output that failed.
pub(crate) fn write_fault_line() -> &'static [u8]
    ensures { result.now ≡ write_fault_line }
{
    b"brc: write fault\n"
}

/// The line for want of memory.
pub(crate) fn no_memory_line() -> &'static [u8]
    ensures { result.now ≡ no_memory_line }
{
    b"brc: no memory\n"
}
