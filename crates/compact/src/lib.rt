// `Design::compact`, after its `apply`: inputs, outputs and the cells that they reach, slot after slot, under new numbers.
#![tactic(auto)]

ghost use Rattle.std.specs.Prelude.{◌≡◌, ◌*◌, ◌≤◌, ◌<◌, length};
ghost use Rattle.std.proofs.lemmas.List.Edits.{sets};
ghost use Rattle.order.specs.inner.Code.{Ready, Walks};
ghost use Rattle.cell_order.specs.inner.Code.{cells_by};
ghost use Rattle.netlist.specs.inner.Areas.{marks_in, visited_at};
ghost use Rattle.netlist.specs.Netlist.{encode, ticket_of};
ghost use Rattle.netlist.specs.inner.Fields.{renamed_fields};
ghost use Rattle.design.specs.inner.Words.{netlist_in};
ghost use Rattle.compact.specs.Compact.{keep, compact};
ghost use Rattle.compact.specs.inner.Words.{renumbered_in, is_root, root_at, Marked, Tallied, Tallies, Keeps, kept_at, kept_in, kept_bytes};

use cell::{Cell, Record};
use netlist::{area, fields};
use value::{Driver, Net, Slot};

// Whether an input or an output starts in a slot.
fn is_root(work: &[u32], s: Slot) -> bool
    ensures { result ≡ is_root work.now s.0 }
{
    let r = netlist::record_in(work, s);
    (r.bit == 0) & netlist::has_effects(Cell::from(r))
}

// Marks what is reached from a slot, if it is a root.
fn keep_from(work: &mut [u32], n: u32, s: Slot, count: u32) -> u32
    requires { Ready n count work.old }
    ensures { Walks cells_by (root_at work.old s.0) n count work.old work.new result }
{
    if is_root(work, s) {
        return cell_order::walk_cell(work, n, s, count);
    }
    count
}

// Marks the cells that are kept, where they start.
fn mark_kept(work: &mut [u32], n: u32)
    requires in_bounds { 16384 ≤ length work.old }
    requires n_bound { n ≤ 1024 }
    ensures { Marked n work.old work.new }
{
    order::clear_marks(work, n);
    let mut count: u32 = 0;
    for s in 0..n {
        count = keep_from(work, n, Slot(s), count);
    }
}

// Whether a slot's cell is marked; the mark stands where the cell starts.
fn is_marked(work: &[u32], n: u32, s: Slot) -> bool
    requires { s.0 < n }
    ensures { result ≡ kept_at n work.now s.0 }
{
    area::VISITED.get(work, cell_order::start_of(work, n, s)) != 0
}

// Goes over the slots once and keeps the tally of those that are kept. A slot's word is twice the tally before it, and one more if it is kept
// itself: one word for both, so each is a look-up and no area is added. The tally behind the last slot is handed back.
fn tally_kept(work: &mut [u32], n: u32) -> u32
    requires in_bounds { 16384 ≤ length work.old }
    requires n_bound { n ≤ 1024 }
    ensures { Tallies n result work.old work.new }
{
    let mut tally: u32 = 0;
    for s in 0..n {
        let kept = u32::from(is_marked(work, n, Slot(s)));
        let next = tally + kept;
        area::ORDER.put(work, Slot(s), 2 * tally + kept);
        tally = next;
    }
    tally
}

// Finds the slots that are kept and their new numbers: cells are marked, slots tallied. Gives how many are kept.
pub fn keep(work: &mut [u32], n: u32) -> u32
    requires in_bounds { 16384 ≤ length work.old }
    requires n_bound { n ≤ 1024 }
    ensures { Keeps n result work.old work.new }
{
    mark_kept(work, n);
    tally_kept(work, n)
}

// The first n slots, `total` of them kept; the words hold the tally before each.
#[derive(Clone, Copy)]
struct Kept<'a> {
    work: &'a [u32],
    n: u32,
    total: u32,
    ghost tallied: { Tallied n total work.now },
}

impl<'a> Kept<'a> {
    // How many slots before slot x are kept, looked up: its new number, if it is kept itself. From slot n on it is `total`, all that are kept.
    fn before(&self, x: Slot) -> u32
        ensures value { result ≡ kept_in self.now.n self.now.work.now x.0 }
        ensures upper_bound { result ≤ self.now.n }
    {
        // Not by `get_or`: no bound of n is asked, so twice the total need not fit.
        if x.0 < self.n {
            return area::ORDER.get(self.work, x) / 2;
        }
        self.total
    }

    // A net under its new number.
    fn net(&self, x: Net) -> Net
        ensures { result ≡ renumbered_in self.now.n self.now.work.now x }
    {
        match x.as_cell_index() {
            Driver::Const(_) => x,
            Driver::Cell(s) => Net::from_cell_index(Slot(self.before(s))),
        }
    }

    // Whether a slot is kept, by its word.
    fn has(&self, s: Slot) -> bool
        requires { s.0 < self.now.n }
        ensures { result ≡ kept_at self.now.n self.now.work.now s.0 }
    {
        area::ORDER.get(self.work, s) % 2 != 0
    }

    // A record with its operands under their new numbers.
    fn renumbered(&self, r: Record) -> Record
        ensures { result ≡ renamed_fields (renumbered_in self.now.n self.now.work.now) r }
    {
        fields::renamed(r, |x| self.net(x))
    }

    // Writes the record of a slot, if it is kept, under its new number.
    fn copy(&self, s: Slot, reply: &mut [u8])
        requires s_lt_n { s.0 < self.now.n }
        requires total_in_bounds { self.now.total * 16 ≤ length reply.old }
        ensures { reply.new ≡ sets reply.old (kept_in self.now.n self.now.work.now s.0 * 16) (kept_bytes self.now.n self.now.work.now s.0) }
    {
        if self.has(s) {
            let own = fields::plain(netlist::record_in(self.work, s));
            let to = Slot(self.before(s));
            cell::write_record(reply, to, self.renumbered(own));
        }
    }
}

// Writes the slots that are kept, `total` of them, under their new numbers.
pub fn compact(work: &[u32], n: u32, total: u32, reply: &mut [u8])
    requires tallied { Tallied n total work.now }
    requires work_value { marks_in visited_at n work.now ≡ keep (netlist_in n work.now) }
    requires total_in_bounds { total * 16 ≤ length reply.old }
    ensures { reply.new ≡ sets reply.old 0 (ticket_of (encode (compact (netlist_in n work.now)))) }
{
    let kept = Kept { work, n, total };
    for s in 0..n {
        kept.copy(Slot(s), reply);
    }
}
