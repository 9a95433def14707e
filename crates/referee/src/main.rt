// Reads certificate.dat, checks it as a flat table, and prints the sheet.
#![tactic(auto)]

use inputs::bytes_or_none;
use sheet::text::sheet_of;
use std::io;

fn main(rt: HostRuntime) -> io::Result<()> {
    let certificate = bytes_or_none(&rt, "certificate.dat")?;
    let sheet = sheet_of(rt.alloc(), certificate)?;
    print!(rt; "{sheet}")
}
