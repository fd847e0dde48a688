// Which rules a jump and an access to memory would break.

ghost use Rattle.std.specs.Prelude.{◌≡◌, ◌+◌, ◌*◌, ◌≤◌, true};
ghost use Rattle.br_words.specs.Device.{in_device_window};
ghost use Rattle.br_words.specs.Layout.{code_base, most_words};
ghost use Rattle.br_machine.specs.Traps.{in_ram, meet, jump_trap, device_trap};

use crate::stepped::Trap;
use br_words::{Layout, device_word};

/// Whether `n` bytes from `a` on are in RAM.
pub(crate) fn in_ram(layout: Layout, a: u32, n: u32) -> bool
    requires { n ≤ 4 }
    ensures { result ≡ in_ram layout a n }
{
    layout.ram_base() <= a && a <= layout.ram_end() - n
}

// Each window begins and ends at a multiple of 4.
fn in_device_window(a: u32) -> bool
    ensures { result ≡ in_device_window a }
{
    device_word(a / 4 * 4)
}

/// The rule that a jump to a target breaks, if it breaks one.
pub(crate) fn jump_trap(target: u32) -> Option<Trap>
    ensures { result ≡ jump_trap target }
{
    if target % 4 == 0 {
        None
    } else {
        Some(Trap::FetchMisaligned)
    }
}

/// The rule that an access to `n` bytes from `a` on breaks, which are outside RAM.
pub(crate) fn device_trap(a: u32, n: u32) -> Option<Trap>
    ensures { result ≡ device_trap a n }
{
    if !in_device_window(a) {
        Some(Trap::AccessOutside)
    } else if n == 4 && a % 4 == 0 {
        None
    } else {
        Some(Trap::DeviceAccess)
    }
}

/// Whether one of `n` bytes from `a` on, which are in RAM, is the code's.
pub(crate) fn touches_code(layout: Layout, code_words: u32, a: u32, n: u32) -> bool
    requires words { code_words ≤ most_words layout }
    requires bytes { n ≤ 4 }
    requires inside { in_ram layout a n ≡ true }
    ensures { result ≡ meet a n (code_base layout) (4 * code_words) }
{
    let base = layout.code_base();
    a.max(base) < (a + n).min(base + 4 * code_words)
}
