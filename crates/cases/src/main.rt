// Runs the cases of the file `cases`, which says how they are written, and prints a line for each
// that differs from what it expects.
#![tactic(auto)]

use case_file::NotUnderstood;
use outcome::{Mismatch, Tally};
use std::{fs, io};
use thiserror::Error;
use trial::Loan;

// Why a case differs.
#[derive(Clone, Copy, Debug, Error)]
enum Fault {
    #[error("{0}")]
    Read(#[from] NotUnderstood),
    #[error("{0}")]
    Tried(#[from] Mismatch),
}

// Reads a case, builds its ticket and runs it.
fn tried(case: &[u8], ticket: &mut [u8], space: &mut [u32], seed: u32) -> Result<(), Fault> {
    let case = case_file::read(case, ticket)?;
    let work = Loan {
        space,
        len: case.lent as usize,
        seed,
    };
    trial::check(&ticket[..case.bytes], work, case.expected)?;
    Ok(())
}

fn run(rt: &impl Print, text: &[u8]) -> io::Result<Tally> {
    // Fixed buffers, here and for the text: with `Vec` the run could fail for want of memory.
    let mut ticket = [0; 16384];
    let mut space = [0; 17000];
    let mut tally = Tally::new();
    for case in text.chunk_by(|x, y| case_file::goes_on(*x, *y)) {
        if case_file::is_head(case) {
            let outcome = tried(case, &mut ticket, &mut space, tally.tried);
            if let Err(fault) = outcome {
                rt.write_all(case_file::name(case))?;
                println!(rt; ": {fault}")?;
            }
            tally = tally.and(outcome.is_err());
        }
    }
    Ok(tally)
}

fn main(rt: HostRuntime) -> io::Result<()> {
    let mut file = match fs::open(&rt, "cases") {
        Ok(file) => file,
        Err(error) => return eprintln!(rt; "cases: {error}"),
    };
    let mut text = [0; 65536];
    let n = full_read::read_full(&mut file, &mut text)?;
    let tally = run(&rt, &text[..n])?;
    println!(rt; "{} cases, {} differ", tally.tried, tally.differ)
}
