// `Cell::Aig` of `SimpleAigOpt`. a and b are its operands, aa and ab those of the cell that a is of, ba and bb those of the cell that b is of.
// Rules are asked for in the order of the definition, and the first that applies decides. The arms are in `aig_arms`.
// Nets, looked-up cells and both orders go one by one, for the reasons at the head of `aig_arms`.
#![tactic(auto)]

ghost use Rattle.std.specs.Prelude.{◌≡◌, false, not, ◌||◌, Some};
ghost use Rattle.value.specs.Value.{from_net_invert, is_positive, is_negative, is_always, not_control, eq_control};
ghost use Rattle.cell.specs.declared.Cell.TheVariants.{Aig};
ghost use Rattle.normalize.specs.declared.Change.TheVariants.{Form};
ghost use Rattle.normalize.specs.Outcomes.{◌or_else◌, given, either_way};
ghost use Rattle.aig.specs.Aig.{aig_of_not, and_with, aig_of_and, nand_with, aig_of_nand, aig_of_xor, aig_order, aig_rule};

use cell::Cell;
use normalize::Change;
use value::{ControlNet, Net};

// contradiction, and-contradiction: a & ~a -> 0, a & 0 -> 0
fn contradicts(a: ControlNet, b: ControlNet) -> bool
    ensures { result ≡ (eq_control a (not_control b) || is_always b false) }
{
    aig_arms::opposite(a, b) || b.is_always(false)
}

// and-not: an inverter of v goes into the sign.
fn merged(v: Net, a: ControlNet, b: ControlNet) -> Change
    ensures { result ≡ Form (Aig (from_net_invert v (not (is_negative a))) b) }
{
    Change::Form(Cell::Aig(ControlNet::from_net_invert(v, !a.is_negative()), b))
}

// By the sign of a.
#[tactic(auto, using(normalize::proofs::First::in_turn))]
fn aig_of_aig(
    src_b: Option<Cell>,
    a: ControlNet,
    b: ControlNet,
    a1: ControlNet,
    a2: ControlNet,
) -> Option<Change>
    ensures { result ≡ (given (is_positive a) (either_way (λ aa ab. and_with src_b a b aa) a1 a2) or_else given (is_negative a) (either_way (nand_with src_b b) a1 a2)) }
{
    if a.is_positive() {
        return aig_arms::and::and_with_either(src_b, a, b, a1, a2);
    }
    aig_arms::nand::nand_with_either(src_b, b, a1, a2)
}

// By the kind of the cell that a is of.
#[tactic(auto, using(normalize::proofs::First::in_turn), unfolding(aig::specs::Aig::if_not, aig::specs::Aig::if_aig, aig::specs::Aig::if_xor, aig::specs::Aig::aig_of_not, aig::specs::Aig::aig_of_and, aig::specs::Aig::aig_of_nand, aig::specs::Aig::aig_of_xor))]
fn aig_of_gate(
    src_a: Option<Cell>,
    src_b: Option<Cell>,
    a: ControlNet,
    b: ControlNet,
) -> Option<Change>
    ensures { result ≡ (aig_of_not src_a a b or_else aig_of_and src_a src_b a b or_else aig_of_nand src_a src_b a b or_else aig_of_xor src_a src_b a b) }
{
    match src_a? {
        Cell::Not(v) => Some(merged(v, a, b)),
        Cell::Aig(a1, a2) => aig_of_aig(src_b, a, b, a1, a2),
        Cell::Xor(a1, a2) => aig_arms::xor::xor_with_either(src_b, a, b, a1, a2),
        _ => None,
    }
}

#[tactic(auto, using(normalize::proofs::First::tests, normalize::proofs::First::in_turn), unfolding(aig::specs::Aig::aig_order))]
fn aig_order(
    src_a: Option<Cell>,
    src_b: Option<Cell>,
    a: ControlNet,
    b: ControlNet,
) -> Option<Change>
    ensures { result ≡ aig_order src_a src_b a b }
{
    // idempotence, and-same: a & a -> a
    if a == b {
        return Some(Change::from(a));
    }
    if contradicts(a, b) {
        return Some(Change::Value(Net::ZERO));
    }
    // identity, and-one: a & 1 -> a
    if b.is_always(true) {
        return Some(Change::from(a));
    }
    aig_of_gate(src_a, src_b, a, b)
}

// In both orders of the operands. `xor_rule` is the same over nets: one function for both would take the order as a closure, and be no shorter.
#[tactic(auto, using(normalize::proofs::First::in_turn), unfolding(aig::specs::Aig::aig_rule))]
pub fn aig_rule(
    src1: Option<Cell>,
    src2: Option<Cell>,
    net1: ControlNet,
    net2: ControlNet,
) -> Option<Change>
    ensures { result ≡ aig_rule src1 src2 net1 net2 }
{
    aig_order(src1, src2, net1, net2).or_else(|| aig_order(src2, src1, net2, net1))
}
