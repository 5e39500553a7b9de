// The search for a doubled label (request 2026-02): two outputs, or two input cells, with one label. The labelled slots so far stand in lists by
// classes of labels (`chains`), so that a slot is compared with few earlier ones.
#![tactic(auto)]

ghost use Rattle.std.specs.Prelude.{◌≡◌, true, cond, eqb, ◌/◌, ◌%◌, ◌≤◌, ◌<◌, length};
ghost use Rattle.kinds.specs.declared.Sort.TheVariants as sort;
ghost use Rattle.kinds.specs.Kinds.{number_of};
ghost use Rattle.cell.specs.Records.{record_at, records_of};
ghost use Rattle.netlist.specs.inner.Areas.{Within};
ghost use Rattle.labels.specs.Labels.{is_labelled, label_of, same_label, doubled_label, first_doubled};
ghost use Rattle.labels.specs.inner.Search.{Listed, Asked, Steps};

use cell::Record;
use chains::Chains;
use kinds::Sort;
use netlist::area::Area;
use value::Slot;

// The lists stand in the first words of the work slice, before any records do.
const LABELS: Chains = Chains {
    heads: Area(0),
    tails: Area(512),
    links: Area(1024),
    classes: 512,
};

// Items of a list from which on it is long.
const LONG: u32 = 16;

// Whether the label of a record counts.
#[tactic(auto, unfolding(crate::specs::Labels::is_labelled))]
fn is_labelled(r: Record) -> bool
    ensures { result ≡ is_labelled r }
{
    kinds::is_output(r.kind) || r.kind == Sort::Input as u8 && r.bit == 0
}

// The field in which the records of a kind have their label, of inputs and outputs.
fn label_by(kind: u8, r: Record) -> u32
    ensures { result ≡ cond (eqb kind (number_of sort.Input)) r.a r.b }
{
    if kind == Sort::Input as u8 { r.a } else { r.b }
}

// The label of a labelled record.
#[tactic(auto, unfolding(crate::specs::Labels::label_of))]
fn label(r: Record) -> u32
    ensures { result ≡ label_of r }
{
    label_by(r.kind, r)
}

// The class of a labelled record.
fn class(r: Record) -> u32
    ensures { result ≡ label_of r % 512 }
{
    label(r) % LABELS.classes
}

// Whether a record has the label of a labelled one of its kind. The label is compared first, in the field where r has it: in a loop that is one
// test that seldom holds, where kinds may come in any order.
#[tactic(auto, using(crate::proofs::Comparing::same_steps))]
fn has_label_of(p: Record, r: Record) -> bool
    requires { is_labelled r ≡ true }
    ensures { result ≡ same_label p r }
{
    label_by(r.kind, p) == label(r) && p.kind == r.kind && is_labelled(p)
}

// Whether an earlier slot has the label of slot s, whose record is r: by the list of its class.
fn is_listed(work: &[u32], ticket: &[u8], s: Slot, r: Record) -> bool
    requires asked { Asked ticket.now s.0 r }
    requires listed { Listed ticket.now s.0 work.now }
    ensures { result ≡ doubled_label (records_of ticket.now) s.0 }
{
    LABELS
        .find(work, class(r), |i| {
            has_label_of(cell::record_at(ticket, Slot(i)), r)
        })
        .is_some()
}

// The same by the ticket alone, over all earlier records.
fn is_before(ticket: &[u8], s: Slot, r: Record) -> bool
    requires { Asked ticket.now s.0 r }
    ensures { result ≡ doubled_label (records_of ticket.now) s.0 }
{
    for x in 0..s.0 {
        if has_label_of(cell::record_at(ticket, Slot(x)), r) {
            return true;
        }
    }
    false
}

// The same by either: which one is chosen changes the time alone. Down a long list each step waits for the one before; 512 inputs of one class take
// 0.10 ms so, and by their list alone 0.26.
fn is_doubled(work: &[u32], ticket: &[u8], s: Slot, r: Record) -> bool
    requires asked { Asked ticket.now s.0 r }
    requires listed { Listed ticket.now s.0 work.now }
    ensures { result ≡ doubled_label (records_of ticket.now) s.0 }
{
    if LABELS.is_longer(work, class(r), LONG) {
        is_before(ticket, s, r)
    } else {
        is_listed(work, ticket, s, r)
    }
}

// Whether slot s, whose record is r, repeats a label; if not, it is put into the list of its class.
fn repeats(work: &mut [u32], ticket: &[u8], s: Slot, r: Record) -> bool
    requires asked { Asked ticket.now s.0 r }
    requires listed { Listed ticket.now s.0 work.old }
    ensures { Steps ticket.now s.0 work.old work.new result }
{
    let doubled = is_doubled(work, ticket, s, r);
    if !doubled {
        LABELS.append(work, s.0, class(r));
    }
    doubled
}

// The lowest slot whose label an earlier record of its kind has.
pub fn find_doubled(work: &mut [u32], ticket: &[u8]) -> Option<Slot>
    requires in_bounds { 16384 ≤ length work.old }
    requires few { length ticket.now / 16 ≤ 512 }
    ensures value { result ≡ first_doubled (records_of ticket.now) }
    ensures within { Within 0 1536 work.old work.new }
{
    LABELS.clear(work);
    for s in 0..cell::records(ticket) as u32 {
        let r = cell::record_at(ticket, Slot(s));
        if is_labelled(r) && repeats(work, ticket, Slot(s), r) {
            return Some(Slot(s));
        }
    }
    None
}
