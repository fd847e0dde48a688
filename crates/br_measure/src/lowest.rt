// The lower of two faults, where each may be none.

ghost use Rattle.std.specs.Prelude.{◌≡◌};
ghost use Rattle.br_measure.specs.Lowest.{lower};

use crate::faults::NameFault;

pub fn lower(first: Option<NameFault>, second: Option<NameFault>) -> Option<NameFault>
    ensures { result ≡ lower first second }
{
    match (first, second) {
        (None, other) => other,
        (some, None) => some,
        (Some(f), Some(g)) => Some(f.lower_of(g)),
    }
}
