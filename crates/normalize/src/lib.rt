// What a rule gives (netlist/src/rewrite.rs, `RewriteResult`), and `Normalize` (generic/src/rewrite/normalize.rs).
#![tactic(auto)]

ghost use Rattle.std.specs.Prelude.{◌≡◌, Some};
ghost use Rattle.normalize.specs.Outcomes.{from_control};
ghost use Rattle.normalize.specs.Normalize.{normalize as normalize_of};

use cell::Cell;
use value::{ControlNet, Net};

// What a rule that applies makes of a cell; a rule that doesn't gives `None`. Metadata apart, `Value` and `Form` are the Rust's own. The
// definition adds a cell in the three other ways (`aig/specs/Aig.antt`). Of these the code makes `NotOf` alone: the arms for and and or call the
// adder themselves (`rewriter_cycle`).
#[derive(Clone, Copy)]
pub enum Change {
    // The net in the cell's place.
    Value(Net),
    // The cell in another form.
    Form(Cell),
    // The value is the net of this cell, once it is added.
    Add(Cell),
    // The form is the inverse of this cell, once it is added.
    NotOf(Cell),
    // The value is the net of the inverse of this cell, once both are added.
    AddNotOf(Cell),
}

// A control net in a cell's place: a negative one is an inverter.
impl From<ControlNet> for Change {
    ghost from_gives = { λ c r. Some r ≡ from_control c };

    #[tactic(auto, unfolding(crate::specs::Outcomes::from_control))]
    fn from(c: ControlNet) -> Change {
        match c {
            ControlNet::Pos(n) => Change::Value(n),
            ControlNet::Neg(n) => Change::Form(Cell::Not(n)),
        }
    }
}

// `Normalize`: buf is its operand; and-exchange, or-exchange, xor-exchange and aig-exchange put the operands in order.
#[tactic(auto, using(crate::proofs::First::tests), unfolding(crate::specs::Normalize::normalize))]
pub fn normalize(c: Cell) -> Option<Change>
    ensures { result ≡ normalize_of c }
{
    match c {
        Cell::Buf(a) => Some(Change::Value(a)),
        Cell::And(a, b) => (a > b).then_some(Change::Form(Cell::And(b, a))),
        Cell::Or(a, b) => (a > b).then_some(Change::Form(Cell::Or(b, a))),
        Cell::Xor(a, b) => (a > b).then_some(Change::Form(Cell::Xor(b, a))),
        Cell::Aig(p, q) => (p > q).then_some(Change::Form(Cell::Aig(q, p))),
        _ => None,
    }
}
