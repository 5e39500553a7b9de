// Lists tickets of several lengths as the lister does, each behind its name and before the number of bytes that it
// leaves in the file; then two calls that fail, one where nothing can be read and one where nothing can be written.
#![tactic(auto)]

use std::io::{Error, Read, Write};
use std::rt::Files;
use std::{fs, io};

// Takes no byte, as a descriptor that is not open.
#[derive(Clone, Copy)]
struct Closed;

impl Write for Closed {
    fn write(&mut self, _buf: &[u8]) -> io::Result<usize> {
        // EBADF.
        Err(Error::from_raw_os_error(9))
    }

    fn flush(&mut self) -> io::Result<()> {
        Ok(())
    }
}

fn tell_left(rt: &impl Print, file: &mut impl Read) -> io::Result<()> {
    let n = io::copy(file, &mut io::sink())?;
    println!(rt; "left {n}")
}

fn list(rt: &(impl Files + Print + Eprint), name: &str, to: &mut impl Write) -> io::Result<()> {
    println!(rt; "{name}")?;
    let mut file = match fs::open(rt, name) {
        Ok(file) => file,
        Err(e) => return eprintln!(rt; "{name}: {e}"),
    };
    match listing::print(&mut file, to) {
        Ok(()) => tell_left(rt, &mut file),
        Err(failure) => {
            eprintln!(rt; "{failure}")?;
            println!(rt; "failed")
        }
    }
}

fn main(rt: HostRuntime) -> io::Result<()> {
    let mut out = rt.stdout();
    // The last is a directory.
    for name in [
        "0",
        "16",
        "8192",
        "8207",
        "8208",
        "8209",
        "undriven",
        "loop",
        "exhausted",
        ".",
    ] {
        list(&rt, name, &mut out)?;
    }
    list(&rt, "16", &mut Closed)
}
