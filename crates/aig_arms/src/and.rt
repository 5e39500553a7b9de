// a is an and: (aa & ab) & b.
ghost use Rattle.std.specs.Prelude.{◌≡◌};
ghost use Rattle.value.specs.Value.{is_positive};
ghost use Rattle.normalize.specs.Outcomes.{given, either_way};
ghost use Rattle.aig.specs.Aig.{if_aig, and_and, and_with};

use crate::opposite;
use aig::source;
use cell::Cell;
use normalize::Change;
use value::{ControlNet, Net};

// (aa & ab) & (ba & bb)
#[tactic(auto, using(normalize::proofs::First::tests, normalize::proofs::First::in_turn), unfolding(aig::specs::Aig::and_and))]
fn and_and(a: ControlNet, aa: ControlNet, ba: ControlNet, bb: ControlNet) -> Option<Change>
    ensures { result ≡ and_and a aa ba bb }
{
    // idempotence, and-and-shared: (aa & ab) & (aa & bb) -> (aa & ab) & bb
    if aa == ba {
        return Some(Change::Form(Cell::Aig(a, bb)));
    }
    // contradiction, and-and-opposed: (aa & ab) & (~aa & bb) -> 0
    if opposite(aa, ba) {
        return Some(Change::Value(Net::ZERO));
    }
    None
}

#[tactic(auto, using(normalize::proofs::First::in_turn), unfolding(aig::specs::Aig::if_aig, aig::specs::inner::Sources::aig_in))]
fn and_with_and(src_b: Option<Cell>, a: ControlNet, b: ControlNet, aa: ControlNet) -> Option<Change>
    ensures { result ≡ if_aig src_b (λ b1 b2. given (is_positive b) (either_way (and_and a aa) b1 b2)) }
{
    let (b1, b2) = source::aig_in(src_b)?;
    if !b.is_positive() {
        return None;
    }
    and_and(a, aa, b1, b2).or_else(|| and_and(a, aa, b2, b1))
}

// (aa & ab) & b
#[tactic(auto, using(normalize::proofs::First::tests, normalize::proofs::First::in_turn), unfolding(aig::specs::Aig::and_with))]
fn and_with(src_b: Option<Cell>, a: ControlNet, b: ControlNet, aa: ControlNet) -> Option<Change>
    ensures { result ≡ and_with src_b a b aa }
{
    // idempotence, and-and-same: (aa & ab) & aa -> aa & ab
    if aa == b {
        return Some(Change::from(a));
    }
    // contradiction, and-and-complement: (aa & ab) & ~aa -> 0
    if opposite(aa, b) {
        return Some(Change::Value(Net::ZERO));
    }
    and_with_and(src_b, a, b, aa)
}

#[tactic(auto, using(normalize::proofs::First::in_turn))]
pub fn and_with_either(
    src_b: Option<Cell>,
    a: ControlNet,
    b: ControlNet,
    a1: ControlNet,
    a2: ControlNet,
) -> Option<Change>
    ensures { result ≡ either_way (λ aa ab. and_with src_b a b aa) a1 a2 }
{
    and_with(src_b, a, b, a1).or_else(|| and_with(src_b, a, b, a2))
}
