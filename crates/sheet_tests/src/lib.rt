// Sheets of the two-bin table with many programmes and books, run through the code.
#![tactic(auto)]

#[cfg(test)]
mod tests {
    use cases::two_bins::{FOUR_ROWS, TWO_BINS};
    use match_sheet::judgement::judge_file;
    use match_sheet::text::sheet_of;
    use programme::{Entrant, Programme};
    use std::alloc::{AllocError, Global};
    use std::test::Fail;

    fn printed(
        heap: Global,
        file: &[u8],
        programme: &[u8],
        book: &[u8],
    ) -> Result<String, AllocError> {
        let judged = judge_file(file.to_vec(heap)?);
        let programme = Programme::new(programme.to_vec(heap)?);
        sheet_of(heap, judged, &programme, book)
    }

    // A programme, a book, and what is printed behind the line `accepted`.
    const SHEETS: [(&[u8], &[u8], &str); 18] = [
        (&[0], &[], ""),
        (
            &[1, 1, 9],
            &[],
            "match 1\n1 0\n1 0\n2 1\n2 0\nover 0 4\nloads 4 2\n",
        ),
        (
            &[1, 2, 1],
            &[],
            "match 1\n1 0\n1 1\n3 0\nover 0 4\nloads 4 1\n",
        ),
        (
            &[1, 2, 255],
            &[],
            "match 1\n1 0\n1 0\n2 0\nover 0 4\nloads 4 0\n",
        ),
        // a book with no rows, and one that sends the first item to bin 1
        (
            &[1, 3, 0],
            &[2, 0, 0],
            "match 1\n1 0\n1 1\n3 0\nover 0 4\nloads 4 1\n",
        ),
        (
            &[1, 3, 0],
            &[2, 0, 1, 0, 0, 1, 1],
            "match 1\n1 1\n1 0\n3 0\nover 0 4\nloads 4 1\n",
        ),
        // the programme is judged whole: its length, then the first unknown kind
        (&[], &[], "refused 40 0 0\n"),
        (&[1, 1], &[], "refused 40 0 0\n"),
        (&[1, 4, 0, 0], &[], "refused 40 0 0\n"),
        (&[2, 0, 4, 0, 0], &[], "refused 40 1 0\n"),
        (&[2, 1, 4, 0, 0], &[], "refused 40 2 0\n"),
        // a missing book, and books that are refused
        (&[1, 3, 0], &[], "match 1\nrefused 17 0 0\n"),
        (&[1, 3, 0], &[9, 0, 0], "match 1\nrefused 16 0 0\n"),
        (&[1, 3, 0], &[2, 0, 1], "match 1\nrefused 17 0 0\n"),
        (
            &[1, 3, 0],
            &[2, 0, 2, 0, 0, 1, 0, 0, 1, 0, 0],
            "match 1\nrefused 18 1 0\n",
        ),
        (
            &[1, 3, 0],
            &[2, 0, 1, 0, 0, 1, 2],
            "match 1\nrefused 19 0 0\n",
        ),
        // a book for another number of bins
        (&[1, 3, 0], &[3, 0, 0], "match 1\nrefused 32 0 0\n"),
        // a fault ends the sheet: the third match is not played
        (
            &[3, 2, 3, 1, 1, 0, 0],
            &[],
            "match 1\n1 0\n1 1\n3 0\nover 0 4\nloads 4 1\nmatch 2\nrefused 17 0 0\n",
        ),
    ];

    #[test]
    fn two_bin_sheets(rt: HostRuntime) -> Result<(), Fail> {
        let heap = rt.alloc();
        for (programme, book, rest) in SHEETS {
            let expected = format!(in heap; "accepted 5 6\n{rest}")?;
            let sheet = printed(heap, &TWO_BINS, programme, book)?;
            assert_eq!(rt; sheet.as_str(), expected.as_str());
        }
        Ok(())
    }

    // A certificate that is torn or refused ends the sheet, whatever the programme says.
    #[test]
    fn refused_certificates(rt: HostRuntime) -> Result<(), Fail> {
        let heap = rt.alloc();
        let torn = printed(heap, &TWO_BINS[..68], &[1, 1, 0], &[])?;
        assert_eq!(rt; torn.as_str(), "refused 7 0 0\n");
        let missing = printed(heap, &[], &[], &[])?;
        assert_eq!(rt; missing.as_str(), "refused 1 0 0\n");
        let refused = printed(heap, &FOUR_ROWS, &[1, 1, 0], &[])?;
        assert_eq!(rt; refused.as_str(), "refused 26 3 1\n");
        Ok(())
    }

    #[test]
    fn entrants(rt: HostRuntime) -> Result<(), Fail> {
        let programme = Programme::new([3, 1, 2, 3, 7, 8, 9].to_vec(rt.alloc())?);
        assert_eq!(rt; programme.matches(), 3);
        assert_eq!(rt; programme.entrant(1)?, Entrant::BestFit);
        assert_eq!(rt; programme.entrant(2)?, Entrant::Threshold(8));
        assert_eq!(rt; programme.entrant(3)?, Entrant::Book);
        assert!(rt; programme.entrant(4).is_err());
        assert!(rt; programme.names_book());
        assert!(rt; !Programme::new([1, 1, 3].to_vec(rt.alloc())?).names_book());
        Ok(())
    }
}
