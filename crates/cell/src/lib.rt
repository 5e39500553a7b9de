// Records of a ticket and one-bit cells, after cell.rs. A record is read out of a slot that the ticket has, and
// written into one that the reply has: no byte of it is tested for.
#![tactic(auto)]

ghost use Rattle.std.specs.Prelude.{◌≡◌, ◌+◌, ◌*◌, ◌/◌, ◌≤◌, ◌<◌, length};
ghost use Rattle.std.proofs.lemmas.List.Edits.{sets};
ghost use Rattle.kinds.specs.Kinds.{number_of, field_number};
ghost use Rattle.cell.specs.Bytes.{word32, store32};
ghost use Rattle.cell.specs.Operands.{field_of, is_operand, is_comb_edge, edge_of, edge_at};
ghost use Rattle.cell.specs.Records.{record_at, bytes_of, record_of, flags_of, cell_of, cell_record};

use kinds::{Field, Sort};
use value::{ControlNet, Driver, Net, Slot};

// The 16 bytes of a slot, field by field. No derived `==`: two records are compared but for the bit
// (`design::queue::record_eq`).
#[derive(Clone, Copy)]
pub struct Record {
    pub kind: u8,
    pub flags: u8,
    pub bit: u16,
    pub a: u32,
    pub b: u32,
    pub c: u32,
}

// One bit of a cell, by value (cell.rs, `Cell`, with labels in place of names).
#[derive(Clone, Copy)]
pub enum Cell {
    Input(u32),
    Output(Net, u32),
    Buf(Net),
    Not(Net),
    And(Net, Net),
    Or(Net, Net),
    Xor(Net, Net),
    // a ? b : c
    Mux(Net, Net, Net),
    Aig(ControlNet, ControlNet),
}

// The number of four bytes that all lie in the slice: no test at the single bytes.
#[tactic(auto, using(crate::proofs::Laws::bytes), unfolding(crate::specs::Bytes::word32))]
fn word32(s: &[u8], i: usize) -> u32
    requires { i + 4 ≤ length s.now }
    ensures { result ≡ word32 s.now i }
{
    u32::from_le_bytes([s[i], s[i + 1], s[i + 2], s[i + 3]])
}

// How many records a ticket's bytes hold; bytes behind the last whole record count for none.
pub fn records(t: &[u8]) -> usize
    ensures { result ≡ length t.now / 16 }
{
    t.len() / 16
}

// The record of a slot of the ticket. That the ticket has the slot stays a clause: a type of both would be a narrower parameter.
#[tactic(auto, using(crate::proofs::Laws::bytes), unfolding(crate::specs::Records::record_at, crate::specs::Bytes::word16))]
pub fn record_at(t: &[u8], s: Slot) -> Record
    requires { s.0 < length t.now / 16 }
    ensures { result ≡ record_at t.now s.0 }
{
    let i = (s.0 as usize) * 16;
    Record {
        kind: t[i],
        flags: t[i + 1],
        bit: u16::from_le_bytes([t[i + 2], t[i + 3]]),
        a: word32(t, i + 4),
        b: word32(t, i + 8),
        c: word32(t, i + 12),
    }
}

// The kind byte of a slot of the ticket.
#[tactic(auto, unfolding(crate::specs::Records::record_at))]
pub fn kind_at(t: &[u8], s: Slot) -> u8
    requires { s.0 < length t.now / 16 }
    ensures { result ≡ (record_at t.now s.0).kind }
{
    t[(s.0 as usize) * 16]
}

// Writes a number's four bytes, likewise. One by one: with `copy_from_slice` here and for the head in `write_record`, compact takes 3 to 8 of 100
// longer on full tickets (chain 28.4 to 30.1 µs, all inputs 18.1 to 19.5).
#[tactic(auto, unfolding(crate::specs::Bytes::store32))]
fn set32(s: &mut [u8], i: usize, v: u32)
    requires { i + 4 ≤ length s.old }
    ensures { s.new ≡ store32 s.old i v }
{
    let [b0, b1, b2, b3] = v.to_le_bytes();
    s[i] = b0;
    s[i + 1] = b1;
    s[i + 2] = b2;
    s[i + 3] = b3;
}

// Writes a record's 16 bytes into a slot that the reply has. The head byte by byte, as in `set32`.
pub fn write_record(reply: &mut [u8], s: Slot, r: Record)
    requires { s.0 * 16 + 16 ≤ length reply.old }
    ensures { reply.new ≡ sets reply.old (s.0 * 16) (bytes_of r) }
{
    let i = (s.0 as usize) * 16;
    let [bit0, bit1] = r.bit.to_le_bytes();
    reply[i] = r.kind;
    reply[i + 1] = r.flags;
    reply[i + 2] = bit0;
    reply[i + 3] = bit1;
    set32(reply, i + 4, r.a);
    set32(reply, i + 8, r.b);
    set32(reply, i + 12, r.c);
}

fn edge_of(d: Driver) -> Option<Slot>
    ensures { result ≡ edge_of d }
{
    match d {
        Driver::Const(_) => None,
        Driver::Cell(s) => Some(s),
    }
}

impl Record {
    // What a field holds. Of the shape of `Kind::use_of`, which gives uses: a trait for both would be no shorter.
    #[tactic(auto, unfolding(crate::specs::Operands::field_of))]
    pub fn field(self, f: Field) -> u32
        ensures { result ≡ field_of self (field_number f) }
    {
        match f {
            Field::A => self.a,
            Field::B => self.b,
            Field::C => self.c,
        }
    }

    // Whether a field holds a net. By the tests that do not branch on the kind: by its row, which is jumped to, the check of drawn tickets took 13 of
    // 100 longer.
    #[tactic(auto, unfolding(crate::specs::Operands::is_operand, kinds::specs::Kinds::use_of))]
    pub fn is_operand(self, f: Field) -> bool
        ensures { result ≡ is_operand self (field_number f) }
    {
        match f {
            Field::A => kinds::net_in_a(self.kind),
            Field::B => kinds::net_in_b(self.kind),
            Field::C => kinds::net_in_c(self.kind),
        }
    }

    // Whether the record's level follows from that of the net in a field.
    #[tactic(auto, unfolding(crate::specs::Operands::is_comb_edge))]
    pub fn is_comb_edge(self, f: Field) -> bool
        ensures { result ≡ is_comb_edge self (field_number f) }
    {
        self.is_operand(f)
    }

    // Where the combinational edge of a field leads: to a slot, or nowhere for a constant or a field that is no such operand.
    #[tactic(auto, unfolding(crate::specs::Operands::edge_at))]
    pub fn edge_at(self, f: Field) -> Option<Slot>
        ensures { result ≡ edge_at self (field_number f) }
    {
        if self.is_comb_edge(f) {
            edge_of(Net(self.field(f)).as_cell_index())
        } else {
            None
        }
    }
}

// The same of a field by its number, for who has no `Field`: that alone would be a narrower parameter; what names no field holds nothing.
#[tactic(auto, unfolding(crate::specs::Operands::field_of))]
pub fn field(r: Record, f: u32) -> u32
    ensures { result ≡ field_of r f }
{
    match Field::try_from(f) {
        Ok(f) => r.field(f),
        Err(_) => 0,
    }
}

#[tactic(auto, unfolding(crate::specs::Operands::is_operand, kinds::specs::Kinds::use_of))]
pub fn is_operand(r: Record, f: u32) -> bool
    ensures { result ≡ is_operand r f }
{
    match Field::try_from(f) {
        Ok(f) => r.is_operand(f),
        Err(_) => false,
    }
}

#[tactic(auto, unfolding(crate::specs::Operands::is_comb_edge))]
pub fn is_comb_edge(r: Record, f: u32) -> bool
    ensures { result ≡ is_comb_edge r f }
{
    is_operand(r, f)
}

#[tactic(auto, unfolding(crate::specs::Operands::edge_at, crate::specs::Operands::is_comb_edge, crate::specs::Operands::is_operand, kinds::specs::Kinds::use_of))]
pub fn edge_at(r: Record, f: u32) -> Option<Slot>
    ensures { result ≡ edge_at r f }
{
    match Field::try_from(f) {
        Ok(f) => r.edge_at(f),
        Err(_) => None,
    }
}

// The cell of a record. None of an unknown kind gets here; as a buffer of a constant it would read no slot.
impl From<Record> for Cell {
    ghost from_gives = { λ r c. c ≡ cell_of r };

    #[tactic(auto, using(crate::proofs::Sorts::unknown), unfolding(crate::specs::Records::cell_of))]
    fn from(r: Record) -> Cell {
        // This first, so that the match below jumps by the kind itself (docs/DESIGN-PASS.md, "A bar of speed").
        if !kinds::is_known(r.kind) {
            return Cell::Buf(Net::ZERO);
        }
        match Sort::try_from(r.kind) {
            Err(_) => Cell::Buf(Net::ZERO),
            Ok(Sort::Input) => Cell::Input(r.a),
            Ok(Sort::Output) => Cell::Output(Net(r.a), r.b),
            Ok(Sort::Buf) => Cell::Buf(Net(r.a)),
            Ok(Sort::Not) => Cell::Not(Net(r.a)),
            Ok(Sort::And) => Cell::And(Net(r.a), Net(r.b)),
            Ok(Sort::Or) => Cell::Or(Net(r.a), Net(r.b)),
            Ok(Sort::Xor) => Cell::Xor(Net(r.a), Net(r.b)),
            Ok(Sort::Mux) => Cell::Mux(Net(r.a), Net(r.b), Net(r.c)),
            // A sign a bit of the flags byte, as the definition has them.
            Ok(Sort::Aig) => Cell::Aig(
                ControlNet::from_net_invert(Net(r.a), r.flags % 2 == 1),
                ControlNet::from_net_invert(Net(r.b), r.flags / 2 % 2 == 1),
            ),
        }
    }
}

fn flags_of(p: ControlNet, q: ControlNet) -> u8
    ensures { result ≡ flags_of p q }
{
    u8::from(p.is_negative()) + 2 * u8::from(q.is_negative())
}

// By position, so that each kind is a line below.
fn record_of(sort: Sort, flags: u8, bit: u16, a: u32, b: u32, c: u32) -> Record
    ensures { result ≡ record_of (number_of sort) flags bit a b c }
{
    Record {
        kind: sort as u8,
        flags,
        bit,
        a,
        b,
        c,
    }
}

impl Cell {
    // The record of a cell that is a given bit of its cell.
    #[tactic(auto, unfolding(crate::specs::Records::cell_record))]
    pub fn record(self, bit: u16) -> Record
        ensures { result ≡ cell_record bit self }
    {
        match self {
            Cell::Input(l) => record_of(Sort::Input, 0, bit, l, 0, 0),
            Cell::Output(x, l) => record_of(Sort::Output, 0, bit, x.0, l, 0),
            Cell::Buf(x) => record_of(Sort::Buf, 0, bit, x.0, 0, 0),
            Cell::Not(x) => record_of(Sort::Not, 0, bit, x.0, 0, 0),
            Cell::And(x, y) => record_of(Sort::And, 0, bit, x.0, y.0, 0),
            Cell::Or(x, y) => record_of(Sort::Or, 0, bit, x.0, y.0, 0),
            Cell::Xor(x, y) => record_of(Sort::Xor, 0, bit, x.0, y.0, 0),
            Cell::Mux(x, y, z) => record_of(Sort::Mux, 0, bit, x.0, y.0, z.0),
            Cell::Aig(p, q) => record_of(Sort::Aig, flags_of(p, q), bit, p.net().0, q.net().0, 0),
        }
    }
}
