// The cycle of netlist/src/rewrite.rs: a rule may add a cell, and adding a cell runs the rules. The functions `rewrite_..` are the arms of
// `SimpleAigOpt` (generic/src/rewrite/aig.rs). Those that look at the cells of their operands decide by the tests of the crates below; those that
// add a cell call the adder.
#![tactic(auto)]

ghost use Rattle.std.specs.Prelude.{◌≡◌, OnErr};
ghost use Rattle.cell.specs.declared.Cell.TheVariants.{Not, And, Or, Xor, Aig};
ghost use Rattle.rewriter_cycle.specs.inner.Cycle.{unadded_of, opted, ruled, Ready, Performs, Processes, Adds};

use cell::Cell;
use normalize::Change;
use rewriter_state::{Extent, Full};
use value::{ControlNet, Net};

// What is left of a cell that was processed (`RewriteResult`): itself, another form, or a net in its place. Not an Option of
// two, as the rules have it of a `Change` for `or_else`: each match has an arm for each of the three, and `Some` would stand around two.
#[derive(Clone, Copy)]
pub enum Processed {
    None,
    Cell(Cell),
    Value(Net),
}

// `Cell::Not`: adds nothing.
#[tactic(auto, unfolding(aig::specs::Aig::simple_aig_opt))]
fn rewrite_not(work: &[u32], x: Extent, a: Net) -> Processed
    ensures { result ≡ unadded_of (opted x work.now (Not a)) }
{
    match aig::not_rule(rewriter_state::find_cell(work, x, a), a) {
        None => Processed::None,
        Some(Change::Value(n)) => Processed::Value(n),
        Some(Change::Form(c)) => Processed::Cell(c),
        // Never: the rules for inverters add no cell.
        Some(Change::Add(_) | Change::NotOf(_) | Change::AddNotOf(_)) => Processed::None,
    }
}

// `Cell::And`, and-split: a & b
#[cycle(passes)]
fn rewrite_and(work: &mut [u32], x: &mut Extent, a: Net, b: Net) -> Result<Processed, Full>
    requires { Ready x.old work.old (And a b) }
    ensures { Performs x.old x.new work.old work.new (opted x.old work.old (And a b)) result }
{
    let n = add(work, x, Cell::Aig(ControlNet::Pos(a), ControlNet::Pos(b)))?;
    Ok(Processed::Value(n))
}

// `Cell::Or`, or-split: ~(~a & ~b)
#[cycle(passes)]
fn rewrite_or(work: &mut [u32], x: &mut Extent, a: Net, b: Net) -> Result<Processed, Full>
    requires { Ready x.old work.old (Or a b) }
    ensures { Performs x.old x.new work.old work.new (opted x.old work.old (Or a b)) result }
{
    let n = add(work, x, Cell::Aig(ControlNet::Neg(a), ControlNet::Neg(b)))?;
    let inverse = add(work, x, Cell::Not(n))?;
    Ok(Processed::Value(inverse))
}

// What the tests of `Cell::Xor` decide over what its operands are looked up as.
#[tactic(auto, unfolding(aig::specs::Aig::simple_aig_opt))]
fn xor_outcome(work: &[u32], x: Extent, a: Net, b: Net) -> Option<Change>
    ensures { result ≡ opted x work.now (Xor a b) }
{
    let look = |n| rewriter_state::find_cell(work, x, n);
    xor_gate::xor_rule(look(a), look(b), a, b)
}

// `Cell::Xor`. It and `Cell::Aig` end in two equal matches: in the paper's form each arm calls the adder itself (docs/DECISIONS.md). What never
// comes has an arm for each variant: of an or-pattern under `Some` the proof of the cycle could cite no variant.
#[cycle(passes)]
fn rewrite_xor(work: &mut [u32], x: &mut Extent, a: Net, b: Net) -> Result<Processed, Full>
    requires { Ready x.old work.old (Xor a b) }
    ensures { Performs x.old x.new work.old work.new (opted x.old work.old (Xor a b)) result }
{
    match xor_outcome(work, *x, a, b) {
        None => Ok(Processed::None),
        Some(Change::Value(n)) => Ok(Processed::Value(n)),
        Some(Change::Form(c)) => Ok(Processed::Cell(c)),
        Some(Change::NotOf(c)) => {
            let n = add(work, x, c)?;
            Ok(Processed::Cell(Cell::Not(n)))
        }
        // Never: no test of this arm asks for the net of a cell.
        Some(Change::Add(_)) => Ok(Processed::None),
        Some(Change::AddNotOf(_)) => Ok(Processed::None),
    }
}

// What the tests of `Cell::Aig` decide over what its operands are looked up as.
#[tactic(auto, unfolding(aig::specs::Aig::simple_aig_opt))]
fn aig_outcome(work: &[u32], x: Extent, p: ControlNet, q: ControlNet) -> Option<Change>
    ensures { result ≡ opted x work.now (Aig p q) }
{
    let look = |n| rewriter_state::find_cell(work, x, n);
    and_inverter::aig_rule(look(p.net()), look(q.net()), p, q)
}

// `Cell::Aig`
#[cycle(passes)]
fn rewrite_aig(
    work: &mut [u32],
    x: &mut Extent,
    p: ControlNet,
    q: ControlNet,
) -> Result<Processed, Full>
    requires { Ready x.old work.old (Aig p q) }
    ensures { Performs x.old x.new work.old work.new (opted x.old work.old (Aig p q)) result }
{
    match aig_outcome(work, *x, p, q) {
        None => Ok(Processed::None),
        Some(Change::Value(n)) => Ok(Processed::Value(n)),
        Some(Change::Form(c)) => Ok(Processed::Cell(c)),
        Some(Change::NotOf(c)) => {
            let n = add(work, x, c)?;
            Ok(Processed::Cell(Cell::Not(n)))
        }
        // Never: no test of this arm asks for the net of a cell.
        Some(Change::Add(_)) => Ok(Processed::None),
        Some(Change::AddNotOf(_)) => Ok(Processed::None),
    }
}

// `SimpleAigOpt::rewrite`
#[cycle(passes)]
fn simple_aig_opt(work: &mut [u32], x: &mut Extent, c: Cell) -> Result<Processed, Full>
    requires { Ready x.old work.old c }
    ensures { Performs x.old x.new work.old work.new (opted x.old work.old c) result }
{
    match c {
        Cell::Not(a) => Ok(rewrite_not(work, *x, a)),
        Cell::Aig(p, q) => rewrite_aig(work, x, p, q),
        Cell::Xor(a, b) => rewrite_xor(work, x, a, b),
        Cell::And(a, b) => rewrite_and(work, x, a, b),
        Cell::Or(a, b) => rewrite_or(work, x, a, b),
        _ => Ok(Processed::None),
    }
}

// One pass over the rules: `Normalize` is asked first, then `SimpleAigOpt`. It ends as `rewrite_not`, but of None the
// two make different things.
#[cycle(passes)]
fn rules(work: &mut [u32], x: &mut Extent, c: Cell) -> Result<Processed, Full>
    requires { Ready x.old work.old c }
    ensures { Performs x.old x.new work.old work.new (ruled x.old work.old c) result }
{
    match normalize::normalize(c) {
        None => simple_aig_opt(work, x, c),
        Some(Change::Value(n)) => Ok(Processed::Value(n)),
        Some(Change::Form(d)) => Ok(Processed::Cell(d)),
        // Never: `Normalize` adds no cell.
        Some(Change::Add(_)) => Ok(Processed::None),
        Some(Change::NotOf(_)) => Ok(Processed::None),
        Some(Change::AddNotOf(_)) => Ok(Processed::None),
    }
}

// `Rewriter::process_cell`: another form goes round again, in a loop that counts nothing; where no rule applies the cache is asked.
#[cycle(passes)]
fn process(work: &mut [u32], x: &mut Extent, c: Cell) -> Result<Processed, Full>
    requires { Ready x.old work.old c }
    ensures { Processes x.old x.new work.old work.new c result }
{
    let mut d = c;
    // Beside d, as c itself must answer None: an Option or a flag would be turned into this at the end.
    let mut left = Processed::None;
    loop {
        match rules(work, x, d)? {
            Processed::None => match rewriter_state::known(work, *x, d) {
                Some(n) => return Ok(Processed::Value(n)),
                None => return Ok(left),
            },
            Processed::Cell(e) => {
                d = e;
                left = Processed::Cell(e);
            }
            Processed::Value(n) => return Ok(Processed::Value(n)),
        }
    }
}

// `Rewriter::add_cell`
#[cycle(passes)]
fn add(work: &mut [u32], x: &mut Extent, c: Cell) -> Result<Net, Full>
    requires { Ready x.old work.old c }
    ensures { Adds x.old x.new work.old work.new c result }
{
    match process(work, x, c)? {
        Processed::None => rewriter_state::enter(work, x, c),
        Processed::Cell(d) => rewriter_state::enter(work, x, d),
        Processed::Value(n) => Ok(n),
    }
}

// `process`, from outside of the cycle: on Full the extent is as it was, though cells may have been added on the way.
#[tactic(auto, using(crate::proofs::Passes::process_back))]
pub fn process_cell(work: &mut [u32], x: &mut Extent, c: Cell) -> Result<Processed, Full>
    requires { Ready x.old work.old c }
    ensures processed { Processes x.old x.new work.old work.new c result }
    ensures full { OnErr result (x.new ≡ x.old) }
{
    let begun = *x;
    match process(work, x, c) {
        Ok(p) => Ok(p),
        Err(full) => {
            *x = begun;
            Err(full)
        }
    }
}

// `add`, from outside of the cycle: on Full the extent is as it was.
#[tactic(auto, using(crate::proofs::Passes::add_back))]
pub fn add_cell(work: &mut [u32], x: &mut Extent, c: Cell) -> Result<Net, Full>
    requires { Ready x.old work.old c }
    ensures added { Adds x.old x.new work.old work.new c result }
    ensures full { OnErr result (x.new ≡ x.old) }
{
    let before = *x;
    match add(work, x, c) {
        Ok(n) => Ok(n),
        Err(full) => {
            *x = before;
            Err(full)
        }
    }
}
