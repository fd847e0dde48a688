// The entry of an image that a name means.

ghost use Rattle.std.specs.Prelude.{◌≡◌, length, Some, None, IfSome, MatchOption};
ghost use Rattle.br_image.specs.Limits.{EntryInLimits};
ghost use Rattle.br_texts.specs.Entries.{entry_named};

use br_image::{Entry, Image};

/// The entry of this name. None where no entry has it.
pub fn entry_named<'a>(image: &'a Image, name: &[u8]) -> Option<&'a Entry>
    ensures named { MatchOption result (entry_named image.now.entries name.now ≡ None)
        (λ e. entry_named image.now.entries name.now ≡ Some e.now) }
    ensures limits { IfSome result (λ e. EntryInLimits (length image.now.code) e.now) }
{
    for entry in image.entries.as_slice() {
        if entry.name.bytes() == name {
            return Some(entry);
        }
    }
    None
}
