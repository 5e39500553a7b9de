// Replays the fixed list of docs/ORACLE.md: for each call a line with the number of tickets and of
// those on which the library differs from the oracle, and before it a line for each of these.
#![tactic(auto)]

mod call;
mod item;

use call::{Call, Check, Levels};
use item::{Fault, Item};
use oracle_list::{Files, ListError, Slices};
use outcome::Tally;
use std::io::Read;
use std::{io, rt};
use trial::{Compact, Merge, Rewrite};

// The list is at its end. The call's files must be too.
fn ended<F: Read>(call: impl Call, files: &mut Files<F>) -> Result<(), ListError> {
    let is_read = call.is_own_read(files)?
        && oracle_list::is_at_end(&mut files.slices)?
        && oracle_list::is_at_end(&mut files.expected)?;
    if is_read {
        Ok(())
    } else {
        Err(ListError::Torn)
    }
}

// Tries the call on each ticket of the list.
fn run<C: Call, P: Print, F: Read>(
    rt: &P,
    call: C,
    files: &mut Files<F>,
    buffer: &mut [u8],
    space: &mut [u32],
    tally: &mut Tally,
) -> Result<(), ListError> {
    for seed in 0..u32::MAX {
        let Some(ticket) = oracle_list::next_ticket(&mut files.tickets, buffer)? else {
            return ended(call, files);
        };
        let slices = Slices::from(oracle_list::read_entry(&mut files.slices)?);
        let item = Item {
            ticket,
            slices,
            seed,
        };
        let tried = call.try_on(item, files, space);
        match tried {
            Ok(()) => {}
            Err(Fault::Differs(mismatch)) => {
                println!(rt; "{} ticket {seed}: {mismatch}", C::NAME)?;
            }
            Err(Fault::Unread(error)) => return Err(error),
        }
        *tally = tally.and(tried.is_err());
    }
    Ok(())
}

fn replay<C: Call>(
    rt: &(impl rt::Files + Print),
    call: C,
    buffer: &mut [u8],
    space: &mut [u32],
) -> io::Result<()> {
    let mut files = oracle_list::open(rt, C::NAME.as_bytes())?;
    let mut tally = Tally::new();
    match run(rt, call, &mut files, buffer, space, &mut tally) {
        Ok(()) => {}
        Err(ListError::Io(error)) => return Err(error),
        Err(ListError::Torn) => {
            println!(rt; "{}", ListError::Torn)?;
            tally = tally.and(true);
        }
    }
    oracle_list::close(files);
    println!(rt;
        "{} {} tickets, {} differ",
        C::NAME,
        tally.tried,
        tally.differ
    )
}

fn main(rt: HostRuntime) -> io::Result<()> {
    // Fixed buffers, as in `item`: with `Vec` the run could fail for want of memory. Here, so that the stack holds them once.
    let mut buffer = [0; 16384];
    let mut space = [0; 17000];
    replay(&rt, Check, &mut buffer, &mut space)?;
    replay(&rt, Compact, &mut buffer, &mut space)?;
    replay(&rt, Merge, &mut buffer, &mut space)?;
    replay(&rt, Rewrite, &mut buffer, &mut space)?;
    replay(&rt, Levels, &mut buffer, &mut space)
}
