// Operations on an expression and a literal.

ghost use Rattle.std.specs.Prelude.{◌≡◌, ◌^◌, ◌<◌, IfSome};
ghost use Rattle.br_simplify.specs.Simple.{by_power, commutes, exponent, simple_form};

use br_words::BinOp;

/// An operation and the literal on its right.
#[derive(Clone, Copy)]
pub(crate) struct Form {
    pub(crate) op: BinOp,
    pub(crate) literal: u32,
}

/// The operation and the literal that do what an operation does with a literal on its right.
pub(crate) fn simple_form(op: BinOp, n: u32) -> Form
    ensures { result ≡ simple_form op n }
{
    match exponent(n) {
        Some(k) => by_power(op, n, k),
        None => Form { op, literal: n },
    }
}

/// Whether an operation may have its operands exchanged.
pub(crate) fn commutes(op: BinOp) -> bool
    ensures { result ≡ commutes op }
{
    match op {
        BinOp::Add | BinOp::Mul | BinOp::Mulhuu | BinOp::And | BinOp::Or | BinOp::Xor => true,
        BinOp::Eq => true,
        BinOp::Sub | BinOp::Divu | BinOp::Remu | BinOp::Sru | BinOp::Slu | BinOp::Srs => false,
        BinOp::Lts | BinOp::Ltu => false,
    }
}

// The exponent of a power of two.
fn exponent(n: u32) -> Option<u32>
    ensures value { result ≡ exponent n }
    ensures power { IfSome result (λ k. 0 < n) }
{
    let k = n.trailing_zeros();
    if k < 32 && 1 << k == n { Some(k) } else { None }
}

fn by_power(op: BinOp, n: u32, k: u32) -> Form
    requires { 0 < n }
    ensures { result ≡ by_power op n k }
{
    match op {
        BinOp::Mul => Form {
            op: BinOp::Slu,
            literal: k,
        },
        BinOp::Divu => Form {
            op: BinOp::Sru,
            literal: k,
        },
        BinOp::Remu => Form {
            op: BinOp::And,
            literal: n - 1,
        },
        BinOp::Add | BinOp::Sub | BinOp::Mulhuu | BinOp::And | BinOp::Or | BinOp::Xor => {
            Form { op, literal: n }
        }
        BinOp::Sru | BinOp::Slu | BinOp::Srs | BinOp::Lts | BinOp::Ltu | BinOp::Eq => {
            Form { op, literal: n }
        }
    }
}
