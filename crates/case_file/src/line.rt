// A line of a case. Words have blanks between.
ghost use Rattle.std.specs.Prelude.{◌≤◌, length, IfOk};

use crate::NotUnderstood;
use crate::ticket::{self, Run};
use arrayvec::ArrayVec;

// What a line has at most: a record, how many of it, and the steps.
const MOST: usize = 13;

// A word's leading digits as a number modulo 2^32; X is the undefined net. No `parse`: it refuses a
// word that goes on behind its digits, and a number past 2^32, which are read as they were.
fn number(word: &[u8]) -> Result<u32, NotUnderstood> {
    match word {
        [b'X', ..] => Ok(u32::MAX),
        [b'0'..=b'9', ..] => Ok(
            word.iter()
                .map_while(|x| char::from(*x).to_digit(10))
                .fold(0, |n: u32, digit| n.wrapping_mul(10).wrapping_add(digit)),
        ),
        _ => Err(NotUnderstood),
    }
}

pub fn numbers(words: &[u8]) -> Result<ArrayVec<u32, MOST>, NotUnderstood> {
    let mut numbers = ArrayVec::new();
    for word in words.split(|x| *x == b' ').filter(|word| !word.is_empty()) {
        numbers.try_push(number(word)?).map_err(|_| NotUnderstood)?;
    }
    Ok(numbers)
}

// One record, so many of it, or so many with steps.
fn run(numbers: &[u32]) -> Result<Run, NotUnderstood> {
    let (first, behind) = numbers.split_first_chunk().ok_or(NotUnderstood)?;
    let (times, steps) = match *behind {
        [] => (1, [0; 6]),
        [times] => (times, [0; 6]),
        [times, kind, flags, bit, a, b, c] => (times, [kind, flags, bit, a, b, c]),
        _ => return Err(NotUnderstood),
    };
    Ok(Run {
        first: *first,
        times,
        steps,
    })
}

// Takes a line behind the head, which is records, a cut, a remark or nothing, and answers how many
// bytes the ticket has then. A cut with no number takes none.
pub fn take(line: &[u8], ticket: &mut [u8], bytes: usize) -> Result<usize, NotUnderstood>
    requires { bytes ≤ length ticket.old }
    ensures { IfOk result (λ n. n ≤ length ticket.new) }
{
    match line {
        [] | [b'#', ..] => Ok(bytes),
        [b'0'..=b'9', ..] => {
            let run = run(numbers(line)?.as_slice())?;
            Ok(ticket::put(ticket, bytes, run))
        }
        [b'-', cut @ ..] => bytes
            .checked_sub(number(cut).unwrap_or(0) as usize)
            .ok_or(NotUnderstood),
        _ => Err(NotUnderstood),
    }
}
