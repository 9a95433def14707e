// Reads certificate.dat, programme.dat and, where a match asks for it, book.dat, and prints the sheet.
#![tactic(auto)]

use inputs::bytes_or_none;
use match_sheet::judgement::judge_file;
use match_sheet::text::{sheet_of, wants_book};
use programme::Programme;
use std::io;

fn main(rt: HostRuntime) -> io::Result<()> {
    let judged = judge_file(bytes_or_none(&rt, "certificate.dat")?);
    let programme = Programme::new(bytes_or_none(&rt, "programme.dat")?);
    let book = if wants_book(&programme) {
        bytes_or_none(&rt, "book.dat")?
    } else {
        Vec::new(rt.alloc())
    };
    let sheet = sheet_of(rt.alloc(), judged, &programme, &book)?;
    print!(rt; "{sheet}")
}
