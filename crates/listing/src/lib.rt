// What the lister does: reads a ticket, rewrites it and prints a line for each record of the result.
#![tactic(auto)]

ghost use Rattle.std.specs.Prelude.{◌≡◌, ◌≤◌, length, take, replicate, OnOk, IfSome};
ghost use Rattle.std.specs.Io.KnownBytes.{Appends};
ghost use Rattle.lines.specs.Lines.{lines_of};
ghost use Rattle.text.specs.Text.{Puts};
ghost use Rattle.listing.specs.Printed.{IsPrefixLen, printed};
ghost use Rattle.listing.specs.Taken.{TakesMost};
ghost use Rattle.listing.specs.Failures.{OnUnread};

use reader::Reader;
use std::io;
use std::io::{Read, Write};
use thiserror::Error;

// How much of the input is read, a record more than a ticket may have. What follows is left alone.
const MOST_READ: usize = 8208;

// Words that the call asks for, bytes that hold every result, and 80 bytes for each of its 1,024 lines.
const WORK: usize = 16384;

const REPLY: usize = 16384;

const TEXT: usize = 81920;

// Puts the lines of a ticket's records at the start of the text, and answers how many bytes they take.
fn list(bytes: &[u8], text: &mut [u8]) -> usize
    requires { (length bytes.now ≤ 16384) × (81920 ≤ length text.old) }
    ensures { Puts 81920 text.old text.new 0 (lines_of bytes.now) result }
{
    let mut n = 0;
    for (s, r) in Reader::open(bytes) {
        n = text::put_record(text, n, s as u32, r);
    }
    n
}

// Rewrites a ticket and puts what is printed for it at the start of the text; answers how many bytes that takes.
fn tell(ticket: &[u8], work: &mut [u32], reply: &mut [u8], text: &mut [u8]) -> usize
    requires reply_len_bound { length reply.old ≤ 16384 }
    requires in_bounds { 81920 ≤ length text.old }
    ensures prefix_len { IsPrefixLen result text.new }
    ensures text_after { take result text.new ≡ printed (length work.old) ticket.now reply.old }
{
    match rewrite_call::rewrite(ticket, work, reply) {
        Ok(bytes) => list(&reply[..bytes as usize], text),
        Err(x) => text::put_refusal(text, 0, x),
    }
}

// Why a ticket was not listed.
#[derive(Clone, Copy, Debug, Error)]
pub enum Failure {
    #[error("the ticket cannot be read: {0}")]
    Unread(io::Error),
    #[error("the list cannot be written: {0}")]
    Unwritten(io::Error),
}

// Lists a ticket, with a buffer for its bytes, the words and the bytes that rewriting works in, and room for the lines.
// Slices: `print` lends them from its fixed memory, since the lister uses no heap.
fn print_with<R: Read, W: Write>(
    from: &mut R,
    to: &mut W,
    ticket: &mut [u8],
    work: &mut [u32],
    reply: &mut [u8],
    text: &mut [u8],
) -> Result<(), Failure>
    requires reply_len_bound { length reply.old ≤ 16384 }
    requires in_bounds { 81920 ≤ length text.old }
    ensures taken { OnOk result (TakesMost (length ticket.old) (R.remaining from.old) (R.remaining from.new)) }
    ensures lists { OnOk result (IfSome (R.remaining from.old) (λ xs.
        Appends (W.contents to.old) (W.contents to.new) (printed (length work.old) (take (length ticket.old) xs) reply.old))) }
    ensures unread { OnUnread result (to.new ≡ to.old) }
{
    let n = full_read::read_full(from, ticket).map_err(Failure::Unread)?;
    let m = tell(&ticket[..n], work, reply, text);
    to.write_all(&text[..m]).map_err(Failure::Unwritten)
}

// Lists the ticket that is read from one stream on another. Of a ticket that was not read to its end nothing is written.
pub fn print<R: Read, W: Write>(from: &mut R, to: &mut W) -> Result<(), Failure>
    ensures taken { OnOk result (TakesMost MOST_READ (R.remaining from.old) (R.remaining from.new)) }
    ensures lists { OnOk result (IfSome (R.remaining from.old) (λ xs.
        Appends (W.contents to.old) (W.contents to.new) (printed WORK (take MOST_READ xs) (replicate REPLY 0)))) }
    ensures unread { OnUnread result (to.new ≡ to.old) }
{
    // Fixed memory: the lister uses no heap.
    let mut ticket = [0; MOST_READ];
    let mut work = [0; WORK];
    let mut reply = [0; REPLY];
    let mut text = [0; TEXT];
    print_with(from, to, &mut ticket, &mut work, &mut reply, &mut text)
}
