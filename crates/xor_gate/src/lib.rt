// `Cell::Xor` of `SimpleAigOpt`. a and b are its operands, aa and ab those of the cell that a is of, ba and bb those of the cell that b is of.
// Rules are asked for in the order of the definition, and the first that applies decides.
// Nets, looked-up cells and both orders go one by one, for the reasons at the head of `aig_arms`.
#![tactic(auto)]

ghost use Rattle.std.specs.Prelude.{◌≡◌, Some};
ghost use Rattle.value.specs.Value.{eq_net};
ghost use Rattle.cell.specs.declared.Cell.TheVariants.{Xor};
ghost use Rattle.normalize.specs.declared.Change.TheVariants.{Form, NotOf};
ghost use Rattle.normalize.specs.Outcomes.{◌or_else◌, given, either_way};
ghost use Rattle.aig.specs.Aig.{if_not, if_aig, if_xor, and_xor, xor_xor, xor_order, xor_rule};

use aig::source;
use cell::Cell;
use normalize::Change;
use value::{ControlNet, Net};

// (aa & ab) ^ b
#[tactic(auto, using(normalize::proofs::First::tests, normalize::proofs::First::in_turn), unfolding(aig::specs::Aig::and_xor, value::specs::Value::eq_control, value::specs::Value::eq_net))]
fn and_xor(b: Net, aa: ControlNet, ab: ControlNet) -> Option<Change>
    ensures { result ≡ and_xor b aa ab }
{
    // xor-and: (aa & ab) ^ aa -> aa & ~ab
    if aa == ControlNet::Pos(b) {
        return Some(Change::Form(Cell::Aig(aa, !ab)));
    }
    // xor-and-inverted: (aa & ab) ^ ~aa -> ~(aa & ~ab)
    if aa == ControlNet::Neg(b) {
        return Some(Change::NotOf(Cell::Aig(aa, !ab)));
    }
    None
}

// xor-xor-shared: (aa ^ ab) ^ (aa ^ bb) -> ab ^ bb
#[tactic(auto, unfolding(value::specs::Value::eq_net))]
fn common(aa: Net, ab: Net, ba: Net, bb: Net) -> Option<Change>
    ensures { result ≡ given (eq_net aa ba) (Some (Form (Xor ab bb))) }
{
    if aa == ba {
        return Some(Change::Form(Cell::Xor(ab, bb)));
    }
    None
}

#[tactic(auto, using(normalize::proofs::First::in_turn), unfolding(aig::specs::Aig::if_xor, aig::specs::inner::Sources::xor_in))]
fn xor_with_xor(src_b: Option<Cell>, aa: Net, ab: Net) -> Option<Change>
    ensures { result ≡ if_xor src_b (either_way (λ ba bb. given (eq_net aa ba) (Some (Form (Xor ab bb))))) }
{
    let (b1, b2) = source::xor_in(src_b)?;
    common(aa, ab, b1, b2).or_else(|| common(aa, ab, b2, b1))
}

// (aa ^ ab) ^ b
#[tactic(auto, using(normalize::proofs::First::in_turn), unfolding(aig::specs::Aig::xor_xor, value::specs::Value::eq_net))]
fn xor_xor(src_b: Option<Cell>, b: Net, aa: Net, ab: Net) -> Option<Change>
    ensures { result ≡ xor_xor src_b b aa ab }
{
    // xor-xor: (aa ^ ab) ^ aa -> ab
    if aa == b {
        return Some(Change::Value(ab));
    }
    xor_with_xor(src_b, aa, ab)
}

// By the kind of the cell that a is of. xor-not: ~v ^ b -> ~(v ^ b).
#[tactic(auto, using(normalize::proofs::First::in_turn), unfolding(aig::specs::Aig::if_not, aig::specs::Aig::if_aig, aig::specs::Aig::if_xor))]
fn xor_of_gate(src_a: Option<Cell>, src_b: Option<Cell>, b: Net) -> Option<Change>
    ensures { result ≡ (if_not src_a (λ v. Some (NotOf (Xor v b))) or_else if_aig src_a (either_way (and_xor b)) or_else if_xor src_a (either_way (xor_xor src_b b))) }
{
    match src_a? {
        Cell::Not(v) => Some(Change::NotOf(Cell::Xor(v, b))),
        Cell::Aig(a1, a2) => and_xor(b, a1, a2).or_else(|| and_xor(b, a2, a1)),
        Cell::Xor(a1, a2) => xor_xor(src_b, b, a1, a2).or_else(|| xor_xor(src_b, b, a2, a1)),
        _ => None,
    }
}

#[tactic(auto, using(normalize::proofs::First::in_turn), unfolding(aig::specs::Aig::xor_order, value::specs::Value::eq_net))]
fn xor_order(src_a: Option<Cell>, src_b: Option<Cell>, a: Net, b: Net) -> Option<Change>
    ensures { result ≡ xor_order src_a src_b a b }
{
    // xor-same: a ^ a -> 0
    if a == b {
        return Some(Change::Value(Net::ZERO));
    }
    // xor-undef: a ^ X -> X
    if b == Net::UNDEF {
        return Some(Change::Value(Net::UNDEF));
    }
    // xor-zero: a ^ 0 -> a
    if b == Net::ZERO {
        return Some(Change::Value(a));
    }
    // xor-one: a ^ 1 -> ~a
    if b == Net::ONE {
        return Some(Change::Form(Cell::Not(a)));
    }
    xor_of_gate(src_a, src_b, b)
}

// In both orders of the operands, as `aig_rule`.
#[tactic(auto, using(normalize::proofs::First::in_turn), unfolding(aig::specs::Aig::xor_rule))]
pub fn xor_rule(src1: Option<Cell>, src2: Option<Cell>, net1: Net, net2: Net) -> Option<Change>
    ensures { result ≡ xor_rule src1 src2 net1 net2 }
{
    xor_order(src1, src2, net1, net2).or_else(|| xor_order(src2, src1, net2, net1))
}
