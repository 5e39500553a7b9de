// Checking: refusals 1 to 8 of the paper's table.
#![tactic(auto)]

ghost use Rattle.std.specs.Prelude.{◌≡◌, ◌-◌, ◌/◌, ◌≤◌, ◌<◌, length, drop};
ghost use Rattle.kinds.specs.Kinds.{field_number};
ghost use Rattle.cell.specs.Records.{record_at, records_of};
ghost use Rattle.refusals.specs.Refusals.{first_of};
ghost use Rattle.checking.specs.Checking.{unknown_kind, unused_not_zero, reserved_field, follows as follows_of, out_of_sequence, undriven as undriven_of, undriven_field, operand_stages, record_stages, record_group, netlist_stages, check_stages, gate_count};

use cell::Record;
use kinds::{Field, Use};
use refusals::Refusal;
use value::{Driver, Net, Slot};

#[tactic(auto, unfolding(crate::specs::Checking::unknown_kind))]
fn unknown_kind(r: Record) -> bool
    ensures { result ≡ unknown_kind r }
{
    !kinds::is_known(r.kind)
}

fn unused_not_zero(u: Use, x: u32) -> bool
    ensures { result ≡ unused_not_zero u x }
{
    (u == Use::Unused) & (x != 0)
}

#[tactic(auto, unfolding(crate::specs::Checking::reserved_field))]
fn reserved_field(r: Record) -> bool
    ensures { result ≡ reserved_field r }
{
    let k = kinds::kind_of(r.kind);
    unused_not_zero(k.a, r.a)
        | (unused_not_zero(k.b, r.b) | (unused_not_zero(k.c, r.c) | (k.flags < r.flags)))
}

// Whether p is the bit before r in one cell.
#[tactic(auto, unfolding(crate::specs::Checking::follows))]
fn follows(p: Record, r: Record) -> bool
    ensures { result ≡ follows_of p r }
{
    let next = u32::from(p.bit) + 1;
    let common = kinds::kind_of(r.kind).common_a;
    (p.kind == r.kind) & (next == u32::from(r.bit)) & (!common | (p.a == r.a))
}

#[tactic(auto, unfolding(crate::specs::Checking::out_of_sequence))]
fn out_of_sequence(s: Slot, p: Record, r: Record) -> bool
    ensures { result ≡ out_of_sequence s.0 p r }
{
    if r.bit == 0 {
        return false;
    }
    let one_bit = kinds::kind_of(r.kind).one_bit;
    one_bit | ((s.0 == 0) | !follows(p, r))
}

// A net is no constant and either names no slot of the ticket or names an output's.
#[tactic(auto, using(crate::proofs::Records::undriven_steps))]
fn undriven(t: &[u8], d: Driver) -> bool
    ensures { result ≡ undriven_of (records_of t.now) d }
{
    match d {
        Driver::Const(_) => false,
        Driver::Cell(s) => cell::records(t) <= s.0 as usize
            || kinds::is_output(cell::kind_at(t, s)),
    }
}

#[tactic(auto, unfolding(crate::specs::Checking::undriven_field))]
fn undriven_field(t: &[u8], r: Record, f: Field) -> bool
    ensures { result ≡ undriven_field (records_of t.now) r (field_number f) }
{
    r.is_operand(f) && undriven(t, Net(r.field(f)).as_cell_index())
}

// The record before a slot; for slot 0, its own, and no Option: the definition tells slot 0 by its number.
fn record_before(t: &[u8], s: Slot) -> Record
    requires { s.0 < length t.now / 16 }
    ensures { result ≡ record_at t.now (s.0 - 1) }
{
    cell::record_at(t, Slot(s.0.saturating_sub(1)))
}

// 7 of one record: the first of its fields that fails. No `for` over the fields: checking took 5 of 100 longer on tickets of inputs and on drawn
// ones. A function of one field, asked three times by `?`, with its contract would be longer than what it spares.
#[tactic(auto, using(crate::proofs::Records::operand_steps))]
fn operand_verdict(t: &[u8], s: Slot, r: Record) -> Result<(), Refusal>
    requires s_in_bounds { s.0 < length t.now / 16 }
    requires r_value { r ≡ record_at t.now s.0 }
    ensures { result ≡ first_of (operand_stages (records_of t.now) s.0) }
{
    if undriven_field(t, r, Field::A) {
        return Err(Refusal::UndrivenOperand(s, Field::A as u32));
    }
    if undriven_field(t, r, Field::B) {
        return Err(Refusal::UndrivenOperand(s, Field::B as u32));
    }
    if undriven_field(t, r, Field::C) {
        return Err(Refusal::UndrivenOperand(s, Field::C as u32));
    }
    Ok(())
}

// 4 to 7 of one record. Ticket, slot and record stay parameters: as a struct that knows that they belong together, checking took 5 to 18 of 100
// longer, with methods over the value and over a reference alike.
#[tactic(auto, using(crate::proofs::Records::record_steps))]
fn record_verdict(t: &[u8], s: Slot) -> Result<(), Refusal>
    requires { s.0 < length t.now / 16 }
    ensures { result ≡ first_of (record_stages (records_of t.now) s.0) }
{
    let r = cell::record_at(t, s);
    if unknown_kind(r) {
        return Err(Refusal::UnknownKind(s));
    }
    if reserved_field(r) {
        return Err(Refusal::ReservedField(s));
    }
    if out_of_sequence(s, record_before(t, s), r) {
        return Err(Refusal::BitOutOfSequence(s));
    }
    operand_verdict(t, s, r)
}

// 4 to 7: the lowest faulty record decides. The bound stays a clause, as `gate_count` has it, which takes any such slice; a type for it
// would serve this function and the next.
#[tactic(auto, using(crate::proofs::Records::records_steps))]
fn records_verdict(t: &[u8]) -> Result<(), Refusal>
    requires { length t.now / 16 ≤ 512 }
    ensures { result ≡ first_of (record_group (records_of t.now)) }
{
    for s in 0..cell::records(t) as u32 {
        record_verdict(t, Slot(s))?;
    }
    Ok(())
}

// 4 to 8.
#[tactic(auto, using(crate::proofs::Netlist::netlist_steps))]
fn netlist_verdict(work: &mut [u32], t: &[u8]) -> Result<(), Refusal>
    requires in_bounds { 16384 ≤ length work.old }
    requires few { length t.now / 16 ≤ 512 }
    ensures value { result ≡ first_of (netlist_stages (records_of t.now)) }
    ensures work_unchanged { drop 16384 work.new ≡ drop 16384 work.old }
{
    records_verdict(t)?;
    match loops::find_loop(work, t, cell::records(t) as u32) {
        Some(s) => Err(Refusal::Loop(s)),
        None => Ok(()),
    }
}

// 2 to 8, with a work slice that is long enough.
#[tactic(auto, using(crate::proofs::Netlist::sizes_steps))]
pub fn verdict_of(work: &mut [u32], t: &[u8]) -> Result<(), Refusal>
    requires { 16384 ≤ length work.old }
    ensures value { result ≡ first_of (check_stages (length work.old) t.now) }
    ensures work_unchanged { drop 16384 work.new ≡ drop 16384 work.old }
{
    if t.len() % 16 != 0 {
        return Err(Refusal::PartialRecord);
    }
    if 512 < cell::records(t) {
        return Err(Refusal::TooManyRecords);
    }
    netlist_verdict(work, t)
}

// The gate count of a ticket.
pub fn gate_count(t: &[u8]) -> u32
    requires { length t.now / 16 ≤ 512 }
    ensures { result ≡ gate_count (records_of t.now) }
{
    (0..cell::records(t) as u32)
        .map(|s| kinds::kind_of(cell::kind_at(t, Slot(s))).gates)
        .sum()
}
