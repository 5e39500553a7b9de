// The operands of a looked-up cell. A function for each kind, as each gives them in types of their own: one for all could only give the cell.
ghost use Rattle.std.specs.Prelude.{◌≡◌};
ghost use Rattle.aig.specs.inner.Sources.{not_in, aig_in, xor_in};

use cell::Cell;
use value::{ControlNet, Net};

#[tactic(auto, unfolding(crate::specs::inner::Sources::not_in))]
pub fn not_in(src: Option<Cell>) -> Option<Net>
    ensures { result ≡ not_in src }
{
    match src? {
        Cell::Not(v) => Some(v),
        _ => None,
    }
}

#[tactic(auto, unfolding(crate::specs::inner::Sources::aig_in))]
pub fn aig_in(src: Option<Cell>) -> Option<(ControlNet, ControlNet)>
    ensures { result ≡ aig_in src }
{
    match src? {
        Cell::Aig(p, q) => Some((p, q)),
        _ => None,
    }
}

#[tactic(auto, unfolding(crate::specs::inner::Sources::xor_in))]
pub fn xor_in(src: Option<Cell>) -> Option<(Net, Net)>
    ensures { result ≡ xor_in src }
{
    match src? {
        Cell::Xor(a, b) => Some((a, b)),
        _ => None,
    }
}
