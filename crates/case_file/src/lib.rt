// The file `cases`, which says how they are written: a case read, and its ticket built.
#![tactic(auto)]

ghost use Rattle.std.specs.Prelude.{◌≡◌, ◌≤◌, ◌||◌, not, nat_eq, length, take, IfOk};
ghost use Rattle.std.specs.Char.{is_ascii_alphabetic};
ghost use Rattle.case_file.specs.Heads.{begins_with_letter};

mod line;
mod ticket;

use outcome::Figures;
use thiserror::Error;

#[derive(Clone, Copy)]
pub struct Case {
    pub lent: u32,
    pub expected: Figures,
    // The ticket's length. Its bytes are in the caller's buffer: a `Vec` of them could fail for want of memory, and with an `ArrayVec` of 16,384,
    // as `line` has one of numbers, a `Case` would be no plain copy.
    pub bytes: usize,
}

// A line of a case is of no known form.
#[derive(Clone, Copy, Debug, PartialEq, Eq, Error)]
#[error("not understood")]
pub struct NotUnderstood;

// Whether a case begins here: its head does with a letter, and no other line.
pub fn is_head(text: &[u8]) -> bool
    ensures { result ≡ begins_with_letter text.now }
{
    text.first().is_some_and(|x| x.is_ascii_alphabetic())
}

// Whether a byte is in the case of the byte before it, so that a text is cut into its cases.
pub fn goes_on(before: u8, x: u8) -> bool
    ensures { result ≡ (not (nat_eq before 10) || not (is_ascii_alphabetic x)) }
{
    before != b'\n' || !x.is_ascii_alphabetic()
}

// A case's first word.
pub fn name(case: &[u8]) -> &[u8]
    ensures { result.now ≡ take (length result.now) case.now }
{
    case.split(|x| *x == b' ' || *x == b'\n')
        .next()
        .unwrap_or(case)
}

// NAME words number place records gates, and the field that a 7 has.
fn head(line: &[u8]) -> Result<Case, NotUnderstood>
    ensures bytes { IfOk result (λ case. case.bytes ≡ 0) }
    ensures spare { IfOk result (λ case. case.expected.spare ≡ 0) }
{
    let figures = line.strip_prefix(name(line)).unwrap_or(line);
    let numbers = line::numbers(figures)?;
    let [lent, number, place, count, extra, field] = match *numbers.as_slice() {
        [lent, number, place, count, extra] => [lent, number, place, count, extra, 0],
        [lent, number, place, count, extra, field] => [lent, number, place, count, extra, field],
        _ => return Err(NotUnderstood),
    };
    let expected = Figures {
        number,
        place,
        count,
        extra,
        field,
        spare: 0,
    };
    Ok(Case {
        lent,
        expected,
        bytes: 0,
    })
}

// The case that begins here, up to the next one's head. Its ticket's bytes are put into ticket.
pub fn read(text: &[u8], ticket: &mut [u8]) -> Result<Case, NotUnderstood>
    ensures in_ticket { IfOk result (λ case. case.bytes ≤ length ticket.new) }
    ensures spare { IfOk result (λ case. case.expected.spare ≡ 0) }
{
    let mut lines = text.split(|x| *x == b'\n');
    let mut case = head(lines.next().unwrap_or(text))?;
    for line in lines.take_while(|line| !is_head(line)) {
        case.bytes = line::take(line, ticket, case.bytes)?;
    }
    Ok(case)
}
