// What parts of a tree stand for, where none of them has a fault.

ghost use Rattle.std.specs.Prelude.{◌≡◌, IfOk};
ghost use Rattle.br_syntax.specs.Shaped.{both, lowest, with_one};

use crate::faults::ShapeFault;
use br_base::NoMemory;
use sqlite_items::Items;

/// What a tree stands for, or its lowest fault.
pub type Shaped<T> = Result<T, ShapeFault>;

/// Both parts, or the lower of their faults.
pub fn both<A: Drop, B: Drop>(first: Shaped<A>, second: Shaped<B>) -> Shaped<(A, B)>
    ensures { result ≡ both first second }
{
    match first {
        Ok(a) => match second {
            Ok(b) => Ok((a, b)),
            Err(fault) => Err(fault),
        },
        Err(fault) => Err(lowest(fault, second)),
    }
}

/// The fault, or the other's where that is lower.
pub fn lowest<B: Drop>(fault: ShapeFault, other: Shaped<B>) -> ShapeFault
    ensures { result ≡ lowest fault other }
{
    match other {
        Ok(_) => fault,
        Err(second) => fault.lower(second),
    }
}

/// The items with one more, or the lowest fault.
pub fn push<T: Drop>(items: Shaped<Items<T>>, item: Shaped<T>) -> Result<Shaped<Items<T>>, NoMemory>
    ensures { IfOk result (λ r. r ≡ with_one items item) }
{
    match both(items, item) {
        Ok((mut items, item)) => {
            items.push(item)?;
            Ok(Ok(items))
        }
        Err(fault) => Ok(Err(fault)),
    }
}
