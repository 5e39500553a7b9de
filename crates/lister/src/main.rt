// The lister: rewrites the ticket on standard input and prints a line for each record of the result.
#![tactic(auto)]

use std::io;

fn main(rt: HostRuntime) -> io::Result<()> {
    match listing::print(&mut rt.stdin(), &mut rt.stdout()) {
        Ok(()) => Ok(()),
        Err(failure) => eprintln!(rt; "{failure}"),
    }
}
