// A case's ticket, built record by record. A record's fields are kind, flags, bit, a, b and c.
ghost use Rattle.std.specs.Prelude.{◌≤◌, length};

const RECORD: usize = 16;

// So many records, each field after the first record's raised by the steps.
#[derive(Clone, Copy)]
pub struct Run {
    pub first: [u32; 6],
    pub times: u32,
    pub steps: [u32; 6],
}

// The bytes of a record, by hand and not by `cell`: the cases do not use the code that they try. A
// field may be too large for its place, and is cut.
fn record(fields: [u32; 6]) -> [u8; RECORD] {
    let [kind, flags, bit, a, b, c] = fields;
    let [kind, ..] = kind.to_le_bytes();
    let [flags, ..] = flags.to_le_bytes();
    let [bit0, bit1, ..] = bit.to_le_bytes();
    let [a0, a1, a2, a3] = a.to_le_bytes();
    let [b0, b1, b2, b3] = b.to_le_bytes();
    let [c0, c1, c2, c3] = c.to_le_bytes();
    [
        kind, flags, bit0, bit1, a0, a1, a2, a3, b0, b1, b2, b3, c0, c1, c2, c3,
    ]
}

fn raise(fields: &mut [u32; 6], steps: [u32; 6]) {
    for (field, step) in fields.iter_mut().zip(steps) {
        *field = field.wrapping_add(step);
    }
}

// Puts a run's records behind the first bytes, as far as there is room, and answers how many bytes
// there are then.
pub fn put(ticket: &mut [u8], bytes: usize, run: Run) -> usize
    requires { bytes ≤ length ticket.old }
    ensures { result ≤ length ticket.new }
{
    let room = (ticket.len() - bytes) / RECORD;
    let end = bytes + RECORD * room.min(run.times as usize);
    let mut fields = run.first;
    for place in ticket[bytes..end].chunks_exact_mut(RECORD) {
        place.copy_from_slice(&record(fields));
        raise(&mut fields, run.steps);
    }
    end
}
