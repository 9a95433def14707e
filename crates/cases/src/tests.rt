use crate::two_bins::{FOUR_ROWS, TWO_BINS};
use certificate::fault::Fault;
use certificate::store::Store;
use flat::FlatTable;
use plan::verdict::Verdict;
use sheet::judgement::judge_file;
use sheet::text::sheet_of;
use std::alloc::{AllocError, Global};
use std::test::Fail;

// The refusal with this number and these places.
fn refused(number: u8, first: usize, second: usize) -> Result<Verdict, Fault> {
    Err(Fault {
        number,
        first,
        second,
    })
}

// The two-bin table with some bytes changed. `game_tests` has the same loop: shared, its contract would say the loop again.
fn changed(heap: Global, changes: &[(usize, u8)]) -> Result<Vec<u8>, AllocError> {
    let mut bytes = TWO_BINS.to_vec(heap)?;
    for (place, new) in changes {
        if let Some(byte) = bytes.get_mut(*place) {
            *byte = *new;
        }
    }
    Ok(bytes)
}

// Changes of the two-bin table, and the fault that each leads to.
const FAULTS: [(&[(usize, u8)], (u8, usize, usize)); 39] = [
    (&[(0, 1)], (2, 0, 0)),
    (&[(0, 9)], (2, 0, 0)),
    (&[(1, 0)], (3, 0, 0)),
    (&[(1, 128)], (3, 0, 0)),
    (&[(2, 3)], (4, 0, 0)),
    (&[(2, 7)], (4, 0, 0)),
    (&[(2, 6)], (26, 2, 0)),
    (&[(1, 127), (2, 255)], (4, 0, 0)),
    (&[(1, 127), (2, 254)], (26, 2, 0)),
    (&[(3, 0)], (5, 0, 0)),
    (&[(3, 33)], (5, 0, 0)),
    (&[(5, 0)], (6, 0, 0)),
    (&[(5, 4)], (7, 0, 0)),
    (&[(4, 1)], (7, 0, 0)),
    (&[(6, 0)], (8, 0, 0)),
    (&[(7, 1)], (8, 1, 0)),
    (&[(8, 2)], (8, 2, 0)),
    (&[(8, 4)], (8, 2, 0)),
    (&[(29, 4)], (9, 4, 0)),
    (&[(30, 9)], (9, 4, 1)),
    (&[(48, 3)], (10, 2, 0)),
    (&[(62, 255)], (10, 4, 0)),
    (&[(14, 0), (16, 0)], (11, 1, 0)),
    (&[(13, 1)], (21, 0, 0)),
    (&[(14, 0), (15, 1)], (22, 1, 1)),
    (&[(26, 1)], (23, 3, 0)),
    (&[(49, 0), (52, 2)], (24, 2, 1)),
    (&[(63, 9)], (24, 4, 0)),
    (&[(67, 0)], (25, 4, 1)),
    (&[(62, 0)], (25, 4, 0)),
    (&[(2, 5)], (26, 2, 0)),
    // several faults at once: the least number, then row, then place
    (&[(29, 4), (48, 3), (15, 2)], (9, 4, 0)),
    (&[(25, 4), (29, 4)], (9, 3, 1)),
    (&[(24, 4), (25, 4)], (9, 3, 0)),
    (&[(15, 2), (30, 3)], (11, 2, 0)),
    (&[(16, 2), (26, 1)], (23, 1, 0)),
    (&[(41, 9), (48, 2), (67, 0)], (10, 1, 0)),
    (&[(67, 0), (36, 3)], (24, 0, 0)),
    (&[(6, 0), (62, 9), (0, 9)], (2, 0, 0)),
];

#[test]
fn every_number(rt: HostRuntime) -> Result<(), Fail> {
    let unchanged = judge_file(changed(rt.alloc(), &[])?);
    assert_eq!(rt; unchanged, Ok(Verdict { rows: 5, bound: 6 }));
    for (changes, (number, first, second)) in FAULTS {
        assert_eq!(rt;
            judge_file(changed(rt.alloc(), changes)?),
            refused(number, first, second)
        );
    }
    Ok(())
}

#[test]
fn other_lengths(rt: HostRuntime) -> Result<(), Fail> {
    let heap = rt.alloc();
    assert_eq!(rt;
        judge_file(Vec::new(heap)),
        refused(1, 0, 0),
        "an empty file"
    );
    assert_eq!(rt;
        judge_file(TWO_BINS[..5].to_vec(heap)?),
        refused(1, 0, 0),
        "five bytes"
    );
    assert_eq!(rt;
        judge_file(TWO_BINS[..6].to_vec(heap)?),
        refused(7, 0, 0),
        "a header alone"
    );
    assert_eq!(rt;
        judge_file(TWO_BINS[..68].to_vec(heap)?),
        refused(7, 0, 0),
        "a byte short"
    );
    let mut long = TWO_BINS.to_vec(heap)?;
    long.push(0)?;
    assert_eq!(rt; judge_file(long), refused(7, 0, 0), "a byte more");
    assert_eq!(rt;
        judge_file(FOUR_ROWS.to_vec(heap)?),
        refused(26, 3, 1),
        "without row 4"
    );
    Ok(())
}

// Rows 1 and 2 exchanged, positions and answers.
#[test]
fn exchanged_rows(rt: HostRuntime) -> Result<(), Fail> {
    let changes = [
        (15, 1),
        (16, 2),
        (20, 0),
        (21, 1),
        (41, 2),
        (42, 2),
        (45, 0),
        (47, 1),
        (48, 0),
        (49, 1),
        (52, 1),
        (54, 0),
    ];
    assert_eq!(rt;
        judge_file(changed(rt.alloc(), &changes)?),
        refused(11, 2, 0)
    );
    Ok(())
}

// A refusal hands the file back as it was.
#[test]
fn file_comes_back(rt: HostRuntime) -> Result<(), Fail> {
    let mut bytes = TWO_BINS.to_vec(rt.alloc())?;
    bytes.push(7)?;
    let sent = bytes.clone()?;
    let Err(refused) = FlatTable::open(bytes) else {
        return Err(Fail::new("opened a file that is too long"));
    };
    assert_eq!(rt; refused.fault.number, 7);
    assert!(rt; refused.bytes == sent);
    Ok(())
}

// Questions about what is there and what is not.
#[test]
fn questions(rt: HostRuntime) -> Result<(), Fail> {
    let Ok(table) = FlatTable::open(TWO_BINS.to_vec(rt.alloc())?) else {
        return Err(Fail::new("the two-bin table did not open"));
    };
    assert_eq!(rt; (table.bins(), table.classes(), table.rows()), (2, 3, 5));
    assert_eq!(rt; (table.capacity(), table.target()), (3, 4));
    assert_eq!(rt; (table.size(2), table.size(3)), (Some(3), None));
    assert_eq!(rt;
        (table.load(4, 1), table.load(4, 2), table.load(5, 0)),
        (Some(2), None, None)
    );
    assert_eq!(rt;
        (table.count(4, 1), table.count(4, 3), table.count(5, 0)),
        (Some(1), None, None)
    );
    assert_eq!(rt; (table.offered(2), table.offered(5)), (Some(2), None));
    assert_eq!(rt;
        (
            table.packed(2, 1, 2),
            table.packed(2, 2, 0),
            table.packed(2, 0, 3),
        ),
        (Some(1), None, None)
    );
    assert_eq!(rt; table.packed(5, 0, 0), None);
    assert_eq!(rt; table.find(&[2, 0], &[2, 0, 0]), Some(3));
    assert_eq!(rt;
        table.find(&[0, 2], &[2, 0, 0]),
        None,
        "loads in another order"
    );
    assert_eq!(rt;
        table.find(&[2, 0, 2], &[0, 0]),
        None,
        "a position of another shape"
    );
    assert_eq!(rt;
        table.find(&[258, 0], &[2, 0, 0]),
        None,
        "a load above a byte"
    );
    assert_eq!(rt;
        table.find(&[2, 0], &[2, 0, 256]),
        None,
        "a count above a byte"
    );
    assert_eq!(rt; table.find(&[3, 3], &[3, 3, 3]), None, "past the last row");
    Ok(())
}

#[test]
fn sheets(rt: HostRuntime) -> Result<(), Fail> {
    let heap = rt.alloc();
    let accepted = sheet_of(heap, TWO_BINS.to_vec(heap)?)?;
    assert_eq!(rt; accepted.as_str(), "accepted 5 6\n");
    let refused = sheet_of(heap, FOUR_ROWS.to_vec(heap)?)?;
    assert_eq!(rt; refused.as_str(), "refused 26 3 1\n");
    Ok(())
}

// A file of 65,535 rows with no loads, whose counts are the row's number in two bytes; `last` are those of the last row.
fn many_rows(heap: Global, last: [u8; 2]) -> Result<Vec<u8>, AllocError> {
    let mut file = [2, 3, 4, 2, 255, 255, 1, 2].to_vec(heap)?;
    for row in 0..65534u16 {
        let [high, low] = row.to_be_bytes();
        file.extend_from_slice(&[0, 0, high, low])?;
    }
    file.extend_from_slice(&[0, 0, last[0], last[1]])?;
    for _ in 0..65535u16 {
        file.extend_from_slice(&[0; 5])?;
    }
    Ok(file)
}

#[test]
fn most_rows(rt: HostRuntime) -> Result<(), Fail> {
    let heap = rt.alloc();
    assert_eq!(rt;
        judge_file(many_rows(heap, [255, 254])?),
        refused(23, 1, 0),
        "opens, and row 1 does not add up"
    );
    assert_eq!(rt;
        judge_file(many_rows(heap, [255, 253])?),
        refused(11, 65534, 0),
        "the last row equals the one before"
    );
    let Ok(table) = FlatTable::open(many_rows(heap, [255, 254])?) else {
        return Err(Fail::new("65,535 rows did not open"));
    };
    assert_eq!(rt; table.find(&[0, 0], &[255, 254]), Some(65534));
    assert_eq!(rt; table.find(&[0, 0], &[255, 255]), None);
    Ok(())
}
