// The ways in which a call can fail that have nothing to do with what it was given.

ghost use Rattle.std.specs.Prelude.{◌≡◌};
ghost use Rattle.br_base.specs.declared.failure.OrMemory.TheVariants.{Memory, Fault};
ghost use Rattle.br_base.specs.Faults.{IfFault};

use std::alloc::{AllocError, AllocFailed};

/// An end refused a read or a write.
#[derive(Clone, Copy, Debug, PartialEq, Eq)]
pub struct Failed;

/// There was no memory for what a call had to keep. It may come at any moment of a call that
/// takes memory.
#[derive(Clone, Copy, Debug, PartialEq, Eq)]
pub struct NoMemory;

impl From<AllocError> for NoMemory {
    fn from(_cause: AllocError) -> NoMemory {
        NoMemory
    }
}

impl<T: Drop> From<AllocFailed<T>> for NoMemory {
    fn from(_cause: AllocFailed<T>) -> NoMemory {
        NoMemory
    }
}

/// Want of memory, or a refusal of what was given.
#[derive(Clone, Copy, Debug, Drop, PartialEq, Eq)]
pub enum OrMemory<F> {
    /// There was no memory.
    Memory,
    /// What was given is refused, for this reason.
    Fault(F),
}

impl<F> OrMemory<F> {
    /// Want of memory as it is, or what `make` makes of the fault.
    pub fn map<G, M: FnOnce(F) -> G>(self, make: M) -> OrMemory<G>
        requires { IfFault self (M.pre make) }
        ensures memory { self ≡ Memory → result ≡ Memory }
        ensures fault { IfFault self
            (λ fault. (made : _) × M.post make fault made × (result ≡ Fault made)) }
    {
        match self {
            OrMemory::Memory => OrMemory::Memory,
            OrMemory::Fault(fault) => OrMemory::Fault(make(fault)),
        }
    }
}

impl<F> From<AllocError> for OrMemory<F> {
    ghost use Rattle.br_base.specs.declared.failure.OrMemory.TheVariants.{Memory};

    ghost from_gives = { λ _ e. e ≡ Memory };

    fn from(_cause: AllocError) -> OrMemory<F> {
        OrMemory::Memory
    }
}

impl<T: Drop, F> From<AllocFailed<T>> for OrMemory<F> {
    ghost use Rattle.br_base.specs.declared.failure.OrMemory.TheVariants.{Memory};

    ghost from_gives = { λ _ e. e ≡ Memory };

    fn from(_cause: AllocFailed<T>) -> OrMemory<F> {
        OrMemory::Memory
    }
}

impl<F> From<NoMemory> for OrMemory<F> {
    ghost use Rattle.br_base.specs.declared.failure.OrMemory.TheVariants.{Memory};

    ghost from_gives = { λ _ e. e ≡ Memory };

    fn from(_cause: NoMemory) -> OrMemory<F> {
        OrMemory::Memory
    }
}
