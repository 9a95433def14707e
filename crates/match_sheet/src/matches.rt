// The matches of a sheet: each one's settlements, how it ended, and the player's loads.
ghost use Rattle.std.specs.Prelude.{◌≡◌, ℕ, ◌*◌, ◌≤◌, List, length, IfOk, string_bytes};
ghost use Rattle.players.specs.Placing.{by_choice};
ghost use Rattle.play.specs.Playing.{played};
ghost use Rattle.match_sheet.specs.Saying.{Says, Adds};
ghost use Rattle.match_sheet.specs.Sheet.{blank_record, lines_of, lines_played, match_of, match_result, text_behind};

use crate::stop::Stop;
use books::book::Book;
use certificate::limits::{MOST_BINS, MOST_CAPACITY};
use certificate::store::Store;
use game::matches::Ended;
use lines::{end_line, loads_line, match_line, record_lines, refused_line};
use play::play;
use players::best_fit::BestFit;
use players::player::Player;
use players::threshold::Threshold;
use programme::{Entrant, Programme};
use std::alloc::{AllocError, Global};

// Room for every match of every table: two bytes for each of at most m × T items.
const MOST_RECORD: usize = 2 * MOST_BINS * MOST_CAPACITY;

// What is said of a match that has ended.
fn ended_lines<P: Player>(
    heap: Global,
    ended: Ended,
    record: &[u8],
    player: &P,
) -> Result<String, AllocError>
    requires { 2 * ended.count ≤ length «record».now }
    ensures { IfOk result (λ s. string_bytes s ≡ lines_of ended (P.Player.loads player.now) «record».now) }
{
    let (outcome, bin, load, count) = ended.result();
    let settled = record_lines(heap, &record[..2 * count])?;
    let end = end_line(heap, outcome, bin, load)?;
    let loads = loads_line(heap, player)?;
    format!(in heap; "{settled}{end}{loads}")
}

// An accepted table, the programme of the matches on it, and the book that some of them may go by.
#[derive(Drop)]
pub struct Matches<'a, S> {
    pub heap: Global,
    pub store: &'a S,
    pub programme: &'a Programme,
    pub book: &'a [u8],
}

impl<'a, S: Store> Matches<'a, S> {
    // Plays a match, and says what happened.
    fn played_match<P: Player + Drop>(&self, mut player: P) -> Result<String, Stop>
        ensures { (choose : List ℕ → ℕ → ℕ) → P.Player.takes player ≡ by_choice choose → Says string_bytes (lines_played (played (S.Store.meaning self.now.store.now) choose (P.Player.loads player) blank_record)) result }
    {
        // a match writes into its caller's bytes, and the ended match says how many it used
        let mut record = [0; MOST_RECORD];
        let ended = play(self.store, &mut player, &mut record)?;
        let lines = ended_lines(self.heap, ended, &record, &player)?;
        Ok(lines)
    }

    // Makes the player of an entrant and plays its match.
    fn entered_match(&self, entrant: Entrant) -> Result<String, Stop>
        ensures { Says string_bytes (match_of (S.Store.meaning self.now.store.now) self.now.book.now entrant) result }
    {
        let store = self.store;
        match entrant {
            Entrant::BestFit => self.played_match(BestFit::new(store.bins(), store.target())?),
            Entrant::Threshold(limit) => self.played_match(Threshold::new(store.bins(), limit)?),
            Entrant::Book => self.played_match(Book::from_bytes(self.book.to_vec(self.heap)?)?),
        }
    }

    // The lines of the match with this number, or what refuses it.
    fn numbered_match(&self, number: usize) -> Result<String, Stop>
        ensures { Says string_bytes (match_result (S.Store.meaning self.now.store.now) self.now.programme.now.bytes.items self.now.book.now number) result }
    {
        let entrant = self.programme.entrant(number)?;
        self.entered_match(entrant)
    }

    // Adds what each match prints, up to a fault.
    fn add_matches(&self, text: &mut String) -> Result<(), Stop>
        ensures { Adds (string_bytes text.old) (string_bytes text.new) (text_behind (S.Store.meaning self.now.store.now) self.now.programme.now.bytes.items self.now.book.now) result }
    {
        self.programme.check()?;
        // a `for`: the first fault ends it by `?`
        for number in 1..=usize::from(self.programme.matches()) {
            let title = match_line(self.heap, number)?;
            text.push_str(&title)?;
            let lines = self.numbered_match(number)?;
            text.push_str(&lines)?;
        }
        Ok(())
    }

    // What is printed behind the line of the accepted table.
    pub fn text(&self) -> Result<String, AllocError>
        ensures { IfOk result (λ s. string_bytes s ≡ text_behind (S.Store.meaning self.now.store.now) self.now.programme.now.bytes.items self.now.book.now) }
    {
        let mut text = String::new(self.heap);
        match self.add_matches(&mut text) {
            Ok(()) => {}
            Err(Stop::Refused(fault)) => text.push_str(&refused_line(self.heap, fault)?)?,
            Err(Stop::Memory(error)) => return Err(error),
        }
        Ok(text)
    }
}
