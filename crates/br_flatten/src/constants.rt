// Which literals are constants of operations.

ghost use Rattle.std.specs.Prelude.{◌≡◌};
ghost use Rattle.br_flatten.specs.Constants.{byte_offset, commutes, constant, left_constant};

use br_flatimp::constant_fits;
use br_words::BinOp;

/// The constant that an operation may have in the place of a literal on its right.
pub(crate) fn constant(op: BinOp, literal: Option<u32>) -> Option<i32>
    ensures { result ≡ constant op literal }
{
    match literal {
        Some(n) => {
            let c = n.cast_signed();
            if constant_fits(op, c) { Some(c) } else { None }
        }
        None => None,
    }
}

/// The constant that an operation may have in the place of a literal on its left.
pub(crate) fn left_constant(op: BinOp, literal: Option<u32>) -> Option<i32>
    ensures { result ≡ left_constant op literal }
{
    if commutes(op) {
        constant(op, literal)
    } else {
        None
    }
}

/// The byte offset that an operation with this literal adds to the word of its other operand.
pub(crate) fn byte_offset(op: BinOp, literal: Option<u32>) -> Option<i32>
    ensures { result ≡ byte_offset op literal }
{
    match op {
        BinOp::Add => constant(BinOp::Add, literal),
        BinOp::Sub | BinOp::Mul | BinOp::Mulhuu | BinOp::Divu | BinOp::Remu => None,
        BinOp::And | BinOp::Or | BinOp::Xor | BinOp::Sru | BinOp::Slu | BinOp::Srs => None,
        BinOp::Lts | BinOp::Ltu | BinOp::Eq => None,
    }
}

fn commutes(op: BinOp) -> bool
    ensures { result ≡ commutes op }
{
    match op {
        BinOp::Add | BinOp::And | BinOp::Or | BinOp::Xor | BinOp::Eq => true,
        BinOp::Sub | BinOp::Mul | BinOp::Mulhuu | BinOp::Divu | BinOp::Remu => false,
        BinOp::Sru | BinOp::Slu | BinOp::Srs | BinOp::Lts | BinOp::Ltu => false,
    }
}
