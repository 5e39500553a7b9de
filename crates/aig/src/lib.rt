// `SimpleAigOpt`, after generic/src/rewrite/aig.rs: a rule is a plan over what the look-up of the operands gave. Its rules by family, with the
// crate that has their code; each test there names its arm as docs/ARMS.md does:
// - constants: an inverter of a constant; a xor or an and with a constant (aig, xor_gate, and_inverter)
// - inverters: two in a row vanish; one before an and-inverter goes into its sign, one before a xor behind it (aig, and_inverter, xor_gate)
// - idempotence and contradiction: an operand that comes again, or comes inverted, also inside an and that is read (and_inverter, aig_arms)
// - subsumption, substitution: an and that is read inverted follows from the other operand, or is cut by it; so is a xor that is read (aig_arms)
// - resolution: two inverted ands that differ in one sign (aig_arms)
// - xor: two inverted ands that make one (aig_arms); a xor with an operand of the and, or of the xor, that it reads (xor_gate)
// - and, or: split into and-inverter and inverter (rewriter_cycle: `rewrite_and`, `rewrite_or`)
#![tactic(auto)]

ghost use Rattle.std.specs.Prelude.{◌≡◌};
ghost use Rattle.aig.specs.Aig.{not_rule};

use cell::Cell;
use normalize::Change;
use value::Net;

pub mod source;

// `Cell::Not`
#[tactic(auto, using(normalize::proofs::First::in_turn), unfolding(crate::specs::Aig::not_rule, crate::specs::Aig::if_not, crate::specs::inner::Sources::not_in, value::specs::Value::eq_net))]
pub fn not_rule(src: Option<Cell>, n: Net) -> Option<Change>
    ensures { result ≡ not_rule src n }
{
    // not-zero, not-one, not-undef
    if n == Net::ZERO {
        return Some(Change::Value(Net::ONE));
    }
    if n == Net::ONE {
        return Some(Change::Value(Net::ZERO));
    }
    if n == Net::UNDEF {
        return Some(Change::Value(Net::UNDEF));
    }
    // not-not: ~~v -> v
    Some(Change::Value(source::not_in(src)?))
}
