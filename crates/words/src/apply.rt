// One operation, chosen by its name.
ghost use Rattle.std.specs.Prelude.{◌≡◌, ◌^◌, ◌<◌};
ghost use Rattle.words.specs.Words.{bits, do1, do2};

use crate::{BinaryOp, Operands, UnaryOp, Width, Word};

// The word that `op` gives of `x`.
pub fn apply1(width: Width, op: UnaryOp, x: u64) -> u64
    requires { x < 2 ^ bits width }
    ensures value { result ≡ do1 (bits width) op x }
    ensures word { result < 2 ^ bits width }
{
    let word = Word { width, value: x };
    match op {
        UnaryOp::Not => word.bit_not(),
        UnaryOp::Neg => word.neg(),
    }
}

// The word that `op` gives of `x` and `y`.
pub fn apply2(width: Width, op: BinaryOp, x: u64, y: u64) -> u64
    requires { (x < 2 ^ bits width) × (y < 2 ^ bits width) }
    ensures value { result ≡ do2 (bits width) op x y }
    ensures word { result < 2 ^ bits width }
{
    let operands = Operands {
        width,
        left: x,
        right: y,
    };
    match op {
        BinaryOp::Add => operands.add(),
        BinaryOp::Sub => operands.sub(),
        BinaryOp::Mul => operands.mul(),
        BinaryOp::Udiv => operands.udiv(),
        BinaryOp::Urem => operands.urem(),
        BinaryOp::And => operands.bit_and(),
        BinaryOp::Or => operands.bit_or(),
        BinaryOp::Xor => operands.bit_xor(),
        BinaryOp::Shl => operands.shl(),
        BinaryOp::Lshr => operands.lshr(),
        BinaryOp::Ashr => operands.ashr(),
        BinaryOp::Comp => operands.comp(),
        BinaryOp::Ult => operands.ult(),
        BinaryOp::Slt => operands.slt(),
    }
}
