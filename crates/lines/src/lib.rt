// The lines of a printed sheet.
#![tactic(auto)]

ghost use Rattle.std.specs.Prelude.{◌≡◌, IfOk, string_bytes};
ghost use Rattle.lines.specs.Lines.{accepted_line, refused_line, match_line, record_lines, end_line, loads_line};

use certificate::fault::Fault;
use game::matches::Outcome;
use plan::verdict::Verdict;
use players::player::{Player, borne};
use std::alloc::{AllocError, Global};

// A table was accepted, with this verdict.
pub fn accepted_line(heap: Global, verdict: Verdict) -> Result<String, AllocError>
    ensures { IfOk result (λ s. string_bytes s ≡ accepted_line verdict) }
{
    format!(in heap; "accepted {verdict}\n")
}

// Something was refused, with this fault.
pub fn refused_line(heap: Global, fault: Fault) -> Result<String, AllocError>
    ensures { IfOk result (λ s. string_bytes s ≡ refused_line fault) }
{
    format!(in heap; "refused {fault}\n")
}

// A match begins; matches count from 1.
pub fn match_line(heap: Global, number: usize) -> Result<String, AllocError>
    ensures { IfOk result (λ s. string_bytes s ≡ match_line number) }
{
    format!(in heap; "match {number}\n")
}

// A line for each settlement of a record: the item's size, and the bin that it went into.
#[tactic(auto, using(crate::proofs::Pairs::pair_at))]
pub fn record_lines(heap: Global, record: &[u8]) -> Result<String, AllocError>
    ensures { IfOk result (λ s. string_bytes s ≡ record_lines «record».now) }
{
    let mut text = String::new(heap);
    let (settlements, _) = record.as_chunks::<2>();
    for [size, bin] in settlements {
        writeln!(text, "{size} {bin}")?;
    }
    Ok(text)
}

// How a match ended, with the last placement's bin and its load.
pub fn end_line(heap: Global, outcome: Outcome, bin: usize, load: u16) -> Result<String, AllocError>
    ensures { IfOk result (λ s. string_bytes s ≡ end_line outcome bin load) }
{
    format!(in heap; "{outcome} {bin} {load}\n")
}

// A player's loads in bin order.
pub fn loads_line<P: Player>(heap: Global, player: &P) -> Result<String, AllocError>
    ensures { IfOk result (λ s. string_bytes s ≡ loads_line (P.Player.loads player.now)) }
{
    let mut text = String::from_str(heap, "loads")?;
    // a `for`: a player answers by number, and a write may fail
    for bin in 0..player.bins() {
        let load = borne(player, bin);
        write!(text, " {load}")?;
    }
    text.push('\n')?;
    Ok(text)
}
