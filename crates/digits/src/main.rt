// Prints the table of digits as it stands in the code: an entry a line, in hexadecimal.
#![tactic(auto)]

use std::io;
use text::digits;

fn main(rt: HostRuntime) -> io::Result<()> {
    for n in 0..1000 {
        let entry = digits::entry(n);
        println!(rt; "{entry:03x}")?;
    }
    Ok(())
}
