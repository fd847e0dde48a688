// The place of a buffer.

ghost use Rattle.std.specs.Prelude.{◌+◌, ◌^◌, ◌≤◌};

/// The addresses of a buffer: the first, and how many.
#[derive(Drop)]
pub(crate) struct Held {
    pub(crate) addr: u32,
    pub(crate) size: u32,
    pub(crate) ghost within: { addr + size ≤ 2 ^ 32 },
}
