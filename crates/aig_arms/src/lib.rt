// The arms of `Cell::Aig` of `SimpleAigOpt` by the cell that a is of: an and, the inverse of an and, a xor. Apart from the rule that asks for
// them, so that each proves in less time. a and b are the operands, aa and ab those of the cell that a is of, ba and bb those of the cell that b
// is of; `.._either` asks in both orders of two operands. The nets go one by one, under the Rust's names and as the definitions take them: of a
// struct of all four each test would take two out again. So does an operand's looked-up cell beside its net. A function for both orders, as the
// definitions have `either_way`, would take the rule as a closure and be no shorter than `or_else`.
#![tactic(auto)]

ghost use Rattle.std.specs.Prelude.{◌≡◌};
ghost use Rattle.value.specs.Value.{not_control, eq_control};

use value::ControlNet;

pub mod and;
pub mod nand;
pub mod xor;

// One is the inverse of the other.
#[tactic(auto, using(normalize::proofs::First::tests))]
pub fn opposite(p: ControlNet, q: ControlNet) -> bool
    ensures { result ≡ eq_control «p» (not_control «q») }
{
    p == !q
}
