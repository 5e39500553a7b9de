// The lines that are printed. Each function puts something at a place of the text and answers the place behind it.
// Text and place are two parameters: a struct that holds the `&mut` would owe its ghost name in a clause of each function.
// No Display: tried, with an `ArrayString<80>` to print into. That `write!` succeeds is promised nowhere, so the goal where it fails stayed open, and
// these functions cannot fail. With `ArrayString::push_str`, which asks for room and cannot fail, each function would state that room as it does here, and the
// line would be copied into the text: a second buffer in place of `at`.
#![tactic(auto)]

ghost use Rattle.std.specs.Prelude.{◌+◌, ◌*◌, ◌≤◌, length};
ghost use Rattle.lines.specs.Decimal.{decimal};
ghost use Rattle.lines.specs.Lines.{to_end, record_line, refusal_line};
ghost use Rattle.text.specs.Text.{Puts};

use cell::Record;
use refusals::{Figures, Refusal};

// Bytes as they are.
fn put_all(text: &mut [u8], at: usize, bytes: &[u8]) -> usize
    requires { at + length bytes.now ≤ length text.old }
    ensures { Puts (length bytes.now) text.old text.new at bytes.now result }
{
    let end = at + bytes.len();
    text[at..end].copy_from_slice(bytes);
    end
}

// A number in decimal, ten digits at most.
fn put_number(text: &mut [u8], at: usize, x: u32) -> usize
    requires { at + 10 ≤ length text.old }
    ensures { Puts 10 text.old text.new at (decimal x) result }
{
    let mut digits = itoa::Buffer::new();
    put_all(text, at, digits.format(x).as_bytes())
}

// Numbers, each behind a space, and the end of the line.
fn put_fields(text: &mut [u8], at: usize, numbers: &[u32]) -> usize
    requires { at + (11 * length numbers.now + 1) ≤ length text.old }
    ensures { Puts (11 * length numbers.now + 1) text.old text.new at (to_end numbers.now) result }
{
    let mut n = at;
    for x in numbers {
        text[n] = b' ';
        n = put_number(text, n + 1, *x);
    }
    text[n] = b'\n';
    n + 1
}

// The line of a record: slot, kind, flags, bit, a, b, c.
pub fn put_record(text: &mut [u8], at: usize, s: u32, r: Record) -> usize
    requires { at + 80 ≤ length text.old }
    ensures { Puts 80 text.old text.new at (record_line s r) result }
{
    let fields = [r.kind.into(), r.flags.into(), r.bit.into(), r.a, r.b, r.c];
    let n = put_number(text, at, s);
    put_fields(text, n, &fields)
}

// The line of a refusal: `refused`, number, place, and after a 7 the field.
pub fn put_refusal(text: &mut [u8], at: usize, x: Refusal) -> usize
    requires { at + 80 ≤ length text.old }
    ensures { Puts 80 text.old text.new at (refusal_line x) result }
{
    let f = Figures::from(x);
    let n = put_all(text, at, b"refused");
    match x {
        Refusal::UndrivenOperand(_, _) => put_fields(text, n, &[f.number, f.place, f.field]),
        _ => put_fields(text, n, &[f.number, f.place]),
    }
}
