// a is the inverse of an and: ~(aa & ab) & b.
ghost use Rattle.std.specs.Prelude.{◌≡◌, Some};
ghost use Rattle.value.specs.Value.{is_positive, is_negative};
ghost use Rattle.normalize.specs.Outcomes.{◌or_else◌, given, either_way};
ghost use Rattle.aig.specs.Aig.{if_aig, nand_and, xor_of, nand_nand, nand_with};

use crate::opposite;
use aig::source;
use cell::Cell;
use normalize::Change;
use value::ControlNet;

// ~(aa & ab) & (ba & bb)
#[tactic(auto, using(normalize::proofs::First::tests, normalize::proofs::First::in_turn), unfolding(aig::specs::Aig::nand_and))]
fn nand_and(b: ControlNet, aa: ControlNet, ab: ControlNet, ba: ControlNet) -> Option<Change>
    ensures { result ≡ nand_and b aa ab ba }
{
    // substitution, nand-and-substitute: ~(aa & ab) & (aa & bb) -> ~ab & (aa & bb)
    if aa == ba {
        return Some(Change::Form(Cell::Aig(!ab, b)));
    }
    // subsumption, nand-and-subsume: ~(aa & ab) & (~aa & bb) -> ~aa & bb
    if opposite(aa, ba) {
        return Some(Change::from(b));
    }
    None
}

// aa ^ ab of the nets, inverted if exactly one of them is negative
#[tactic(auto, unfolding(aig::specs::Aig::xor_of))]
fn xor_of(aa: ControlNet, ab: ControlNet) -> Change
    ensures { Some result ≡ xor_of aa ab }
{
    let xor = Cell::Xor(aa.net(), ab.net());
    if aa.is_negative() != ab.is_negative() {
        Change::NotOf(xor)
    } else {
        Change::Form(xor)
    }
}

// ~(aa & ab) & ~(ba & bb)
#[tactic(auto, using(normalize::proofs::First::tests, normalize::proofs::First::in_turn), unfolding(aig::specs::Aig::nand_nand))]
fn nand_nand(aa: ControlNet, ab: ControlNet, ba: ControlNet, bb: ControlNet) -> Option<Change>
    ensures { result ≡ nand_nand aa ab ba bb }
{
    if !opposite(aa, ba) {
        return None;
    }
    // resolution, nand-resolve: ~(aa & ab) & ~(~aa & ab) -> ~ab
    if ab == bb {
        return Some(Change::from(!ab));
    }
    // recognition of xor, xor-found and xor-found-inverted: ~(aa & ab) & ~(~aa & ~ab) -> aa ^ ab
    if opposite(ab, bb) {
        return Some(xor_of(aa, ab));
    }
    None
}

#[tactic(auto, using(normalize::proofs::First::in_turn), unfolding(aig::specs::Aig::if_aig, aig::specs::inner::Sources::aig_in))]
fn nand_with_aig(
    src_b: Option<Cell>,
    b: ControlNet,
    aa: ControlNet,
    ab: ControlNet,
) -> Option<Change>
    ensures { result ≡ (if_aig src_b (λ b1 b2. given (is_positive b) (either_way (λ ba bb. nand_and b aa ab ba) b1 b2)) or_else if_aig src_b (λ b1 b2. given (is_negative b) (either_way (nand_nand aa ab) b1 b2))) }
{
    let (b1, b2) = source::aig_in(src_b)?;
    if b.is_positive() {
        return nand_and(b, aa, ab, b1).or_else(|| nand_and(b, aa, ab, b2));
    }
    nand_nand(aa, ab, b1, b2).or_else(|| nand_nand(aa, ab, b2, b1))
}

// ~(aa & ab) & b
#[tactic(auto, using(normalize::proofs::First::tests, normalize::proofs::First::in_turn), unfolding(aig::specs::Aig::nand_with))]
fn nand_with(src_b: Option<Cell>, b: ControlNet, aa: ControlNet, ab: ControlNet) -> Option<Change>
    ensures { result ≡ nand_with src_b b aa ab }
{
    // substitution, nand-substitute: ~(aa & ab) & aa -> ~ab & aa
    if aa == b {
        return Some(Change::Form(Cell::Aig(!ab, b)));
    }
    // subsumption, nand-subsume: ~(aa & ab) & ~aa -> ~aa
    if opposite(aa, b) {
        return Some(Change::from(b));
    }
    nand_with_aig(src_b, b, aa, ab)
}

#[tactic(auto, using(normalize::proofs::First::in_turn))]
pub fn nand_with_either(
    src_b: Option<Cell>,
    b: ControlNet,
    a1: ControlNet,
    a2: ControlNet,
) -> Option<Change>
    ensures { result ≡ either_way (nand_with src_b b) a1 a2 }
{
    nand_with(src_b, b, a1, a2).or_else(|| nand_with(src_b, b, a2, a1))
}
