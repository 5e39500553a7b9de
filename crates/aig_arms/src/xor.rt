// a is a xor or its inverse: (aa ^ ab) & b.
ghost use Rattle.std.specs.Prelude.{◌≡◌};
ghost use Rattle.value.specs.Value.{is_positive};
ghost use Rattle.normalize.specs.Outcomes.{given, either_way};
ghost use Rattle.aig.specs.Aig.{if_aig, xor_and, xor_with};

use aig::source;
use cell::Cell;
use normalize::Change;
use value::{ControlNet, Net};

// (aa ^ ab) & b, with b or an operand of b on aa: substitution, xor-substitute and xor-and-substitute. (aa ^ ab) & aa -> ~ab & aa, and
// (aa ^ ab) & (aa & bb) -> ~ab & (aa & bb); a sign on either side turns that of ab.
#[tactic(auto, unfolding(aig::specs::Aig::xor_and, value::specs::Value::eq_net))]
fn xor_and(a: ControlNet, b: ControlNet, aa: Net, ab: Net, on: ControlNet) -> Option<Change>
    ensures { result ≡ xor_and a b aa ab on }
{
    if aa == on.net() {
        let inverted = a.is_negative() == on.is_negative();
        return Some(Change::Form(Cell::Aig(ControlNet::from_net_invert(ab, inverted), b)));
    }
    None
}

#[tactic(auto, using(normalize::proofs::First::in_turn), unfolding(aig::specs::Aig::if_aig, aig::specs::inner::Sources::aig_in))]
fn xor_with_and(
    src_b: Option<Cell>,
    a: ControlNet,
    b: ControlNet,
    aa: Net,
    ab: Net,
) -> Option<Change>
    ensures { result ≡ if_aig src_b (λ b1 b2. given (is_positive b) (either_way (λ ba bb. xor_and a b aa ab ba) b1 b2)) }
{
    let (b1, b2) = source::aig_in(src_b)?;
    if !b.is_positive() {
        return None;
    }
    xor_and(a, b, aa, ab, b1).or_else(|| xor_and(a, b, aa, ab, b2))
}

#[tactic(auto, using(normalize::proofs::First::in_turn), unfolding(aig::specs::Aig::xor_with))]
fn xor_with(src_b: Option<Cell>, a: ControlNet, b: ControlNet, aa: Net, ab: Net) -> Option<Change>
    ensures { result ≡ xor_with src_b a b aa ab }
{
    xor_and(a, b, aa, ab, b).or_else(|| xor_with_and(src_b, a, b, aa, ab))
}

#[tactic(auto, using(normalize::proofs::First::in_turn))]
pub fn xor_with_either(
    src_b: Option<Cell>,
    a: ControlNet,
    b: ControlNet,
    a1: Net,
    a2: Net,
) -> Option<Change>
    ensures { result ≡ either_way (xor_with src_b a b) a1 a2 }
{
    xor_with(src_b, a, b, a1, a2).or_else(|| xor_with(src_b, a, b, a2, a1))
}
