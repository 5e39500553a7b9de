// `Cell::visit` and `Cell::visit_mut` at the fields of a record. None of this branches on the kind, which is hard to predict.
ghost use Rattle.std.specs.Prelude.{◌≡◌};
ghost use Rattle.cell.specs.Records.{cell_of, cell_record};
ghost use Rattle.netlist.specs.inner.Fields.{field_operands, with_nets, renamed_fields};

use cell::Record;
use kinds::Sort;
use value::Net;

// The record of a record's cell: what its kind does not use is 0.
pub fn plain(r: Record) -> Record
    ensures { result ≡ cell_record r.bit (cell_of r) }
{
    let known = kinds::is_known(r.kind);
    Record {
        kind: basics::pick(known, r.kind, Sort::Buf as u8),
        flags: basics::pick(
            kinds::has_flags(r.kind),
            // The two signs one by one, as the definition has them.
            r.flags % 2 + r.flags / 2 % 2 * 2,
            0,
        ),
        bit: r.bit,
        a: basics::pick(known, r.a, 0),
        b: basics::pick(kinds::uses_b(r.kind), r.b, 0),
        c: basics::pick(kinds::net_in_c(r.kind), r.c, 0),
    }
}

// The nets that a cell reads, by field; a constant where there is none.
#[derive(Clone, Copy)]
pub struct Operands(pub Net, pub Net, pub Net);

// Those in the fields of a record.
pub fn nets(r: Record) -> Operands
    ensures { result ≡ field_operands r }
{
    Operands(
        Net(basics::pick(kinds::net_in_a(r.kind), r.a, 0)),
        Net(basics::pick(kinds::net_in_b(r.kind), r.b, 0)),
        Net(basics::pick(kinds::net_in_c(r.kind), r.c, 0)),
    )
}

// The record with other nets where there are any. Three nets and no `Operands`: both callers have just made them one by one.
pub fn with_nets(r: Record, a: Net, b: Net, c: Net) -> Record
    ensures { result ≡ with_nets r a b c }
{
    Record {
        a: basics::pick(kinds::net_in_a(r.kind), a.0, r.a),
        b: basics::pick(kinds::net_in_b(r.kind), b.0, r.b),
        c: basics::pick(kinds::net_in_c(r.kind), c.0, r.c),
        ..r
    }
}

// The record with what a function gives for the nets where there are any.
pub fn renamed<F: Fn(Net) -> Net>(r: Record, f: F) -> Record
    requires { F.IsAlwaysCallable f }
    ensures { (g : Net → Net) → ((x : Net) (y : Net) → F.post f x y → y ≡ g x) → result ≡ renamed_fields g r }
{
    let Operands(a, b, c) = nets(r);
    let x = f(a);
    let y = f(b);
    let z = f(c);
    with_nets(r, x, y, z)
}
