use books::book::Book;
use cases::two_bins::TWO_BINS;
use certificate::fault::Fault;
use certificate::store::Store;
use flat::FlatTable;
use game::matches::Outcome;
use game::matches::opening::open_match;
use play::play;
use players::best_fit::BestFit;
use players::player::Player;
use players::threshold::Threshold;
use std::alloc::Global;
use std::test::Fail;

// The two-bin table with some bytes changed. The cases have the same loop: shared, its contract would say the loop again.
pub fn two_bins(heap: Global, changes: &[(usize, u8)]) -> Result<FlatTable, Fail> {
    let mut bytes = TWO_BINS.to_vec(heap)?;
    for (place, value) in changes {
        if let Some(byte) = bytes.get_mut(*place) {
            *byte = *value;
        }
    }
    FlatTable::open(bytes).map_err(|_| Fail::new("the table did not open"))
}

// How a played match ended, and the loads of its two bins.
fn played<P: Player>(
    table: &FlatTable,
    player: &mut P,
    record: &mut [u8],
) -> Result<((Outcome, usize, u16, usize), [Option<u16>; 2]), Fault> {
    let ended = play(table, player, record)?;
    Ok((ended.result(), [player.load(0), player.load(1)]))
}

#[test]
fn best_fit(rt: HostRuntime) -> Result<(), Fail> {
    let table = two_bins(rt.alloc(), &[])?;
    let mut record = [9; 10];
    let ended = played(&table, &mut BestFit::new(2, 4)?, &mut record)?;
    assert_eq!(rt; ended, ((Outcome::Over, 0, 4, 4), [Some(4), Some(2)]));
    assert!(rt; record == [1, 0, 1, 0, 2, 1, 2, 0, 9, 9]);
    Ok(())
}

#[test]
fn threshold(rt: HostRuntime) -> Result<(), Fail> {
    let table = two_bins(rt.alloc(), &[])?;
    let mut record = [9; 6];
    let ended = played(&table, &mut Threshold::new(2, 1)?, &mut record)?;
    assert_eq!(rt; ended, ((Outcome::Over, 0, 4, 3), [Some(4), Some(1)]));
    assert!(rt; record == [1, 0, 1, 1, 3, 0]);
    Ok(())
}

// A short record, another number of bins, and a player that has moved on.
#[test]
fn declined(rt: HostRuntime) -> Result<(), Fail> {
    let table = two_bins(rt.alloc(), &[])?;
    let mut player = Threshold::new(2, 1)?;
    let faults = [
        play(&table, &mut player, &mut [0; 5]).err(),
        open_match(&table, &BestFit::new(3, 4)?).err(),
        open_match(&table, &player).err(),
    ];
    assert_eq!(rt;
        faults,
        [
            Some(Fault::of(37)),
            Some(Fault::of(32)),
            Some(Fault::of(33))
        ]
    );
    Ok(())
}

// Every fault of opening, with its place.
#[test]
fn opening(rt: HostRuntime) -> Result<(), Fail> {
    let heap = rt.alloc();
    let table = two_bins(heap, &[])?;
    let mut loaded = BestFit::new(2, 4)?;
    loaded.place(1)?;
    let mut second = Book::from_bytes([2, 0, 1, 0, 0, 1, 1].to_vec(heap)?).map_err(Fault::from)?;
    second.place(1)?;
    let faults = [
        open_match(&two_bins(heap, &[(13, 1)])?, &BestFit::new(3, 4)?).err(),
        open_match(&table, &BestFit::new(3, 4)?).err(),
        open_match(&table, &loaded).err(),
        open_match(&table, &second).err(),
        open_match(&table, &BestFit::new(2, 4)?).err(),
    ];
    let second_bin = Fault {
        number: 33,
        first: 1,
        second: 0,
    };
    assert_eq!(rt;
        faults,
        [
            Some(Fault::of(31)),
            Some(Fault::of(32)),
            Some(Fault::of(33)),
            Some(second_bin),
            None
        ]
    );
    Ok(())
}

// A record without room stops the play where it is; an unchecked table can let the player escape.
#[test]
fn stopped(rt: HostRuntime) -> Result<(), Fail> {
    let heap = rt.alloc();
    let table = two_bins(heap, &[])?;
    let mut player = Threshold::new(2, 1)?;
    let mut short = [9; 5];
    assert_eq!(rt;
        play(&table, &mut player, &mut short).err(),
        Some(Fault::of(37))
    );
    assert!(rt; short == [1, 0, 1, 1, 9]);
    assert_eq!(rt; (player.load(0), player.load(1)), (Some(1), Some(1)));
    let higher = two_bins(heap, &[(2, 5)])?;
    let mut careful = Threshold::new(2, 1)?;
    let ended = play(&higher, &mut careful, &mut [0; 6])?;
    assert_eq!(rt; ended.result(), (Outcome::Escape, 0, 4, 3));
    Ok(())
}
