// The names of functions by the place where they begin.

ghost use Rattle.std.specs.Prelude.{◌≡◌, IfOk};
ghost use Rattle.br_listing.specs.Index.{IsIndex};

use br_base::NoMemory;
use br_image::Entry;
use std::alloc::Global;
use std::collections::BTreeMap;

/// For each offset at which functions begin, their lines in the order of the entries.
pub(crate) fn labels_by_offset(
    alloc: Global,
    entries: &[Entry],
) -> Result<BTreeMap<u32, Vec<u8>>, NoMemory>
    ensures { IfOk result (λ labels. IsIndex labels entries.now) }
{
    let mut labels = BTreeMap::new(alloc);
    for entry in entries {
        let lines = labels.entry(entry.offset)?.or_insert(Vec::new(alloc));
        lines.extend_from_slice(entry.name.bytes())?;
        lines.extend_from_slice(b":\n")?;
    }
    Ok(labels)
}
