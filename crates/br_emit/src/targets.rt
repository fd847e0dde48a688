// Where the code of functions stands.

ghost use Rattle.std.specs.Prelude.{◌≡◌};
ghost use Rattle.br_emit.specs.Ready.{aimed};

use std::marker::Model;

/// The addresses of functions, in the order of the program, and whether the whole code is in the
/// reach of JAL from each of its words.
#[derive(Drop)]
pub struct Targets<'a> {
    near: bool,
    addresses: &'a [u32],
}

impl<'a> Model for Targets<'a> {
    ghost use Rattle.br_emit.specs.Ready.{Aims};

    ghost Value = { Aims };

    ghost view = { λ t. record {
      near = t.near;
      addresses = t.addresses.now;
    } };
}

impl<'a> Targets<'a> {
    /// Functions at these addresses.
    pub fn new(near: bool, addresses: &'a [u32]) -> Targets<'a>
        ensures { result ≡ record { near = near; addresses = addresses.now } }
    {
        Targets { near, addresses }
    }

    /// Whether all of the code is near.
    pub fn near(&self) -> bool
        ensures { result ≡ self.now.near }
    {
        self.near
    }

    /// The address of the function of a number.
    pub fn at(&self, n: usize) -> u32
        ensures { result ≡ (aimed self.now).at n }
    {
        match self.addresses.get(n) {
            Some(address) => *address,
            None => 0,
        }
    }
}
