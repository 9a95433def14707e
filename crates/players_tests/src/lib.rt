// Players at work: tables of placings, of books and of refusals.
#![tactic(auto)]

#[cfg(test)]
mod tests {
    use books::book::{Advice, Book};
    use certificate::fault::Fault;
    use players::best_fit::BestFit;
    use players::by_rule::{ByRule, PlacingRule};
    use players::player::Player;
    use players::threshold::Threshold;
    use std::process::Abort;
    use std::test::Fail;

    // A fault that names no place, or a row.
    fn fault(number: u8, first: usize) -> Fault {
        Fault {
            number,
            first,
            second: 0,
        }
    }

    // What a book's bytes give, a refusal told by its fault alone.
    fn read_book(book: Vec<u8>) -> Result<Book, Fault> {
        Ok(Book::from_bytes(book)?)
    }

    // The same as a player of a rule.
    fn open_book(book: Vec<u8>) -> Result<ByRule<Advice>, Fault> {
        Ok(Book::open(book)?)
    }

    // Places each size by a player of any rule, and compares the bin that the rule prefers and the one that it gets.
    fn places_by_rule<R: PlacingRule>(
        rt: &impl Abort,
        player: &mut ByRule<R>,
        items: &[(u16, Option<usize>, usize)],
    ) {
        for (size, preferred, bin) in items {
            assert_eq!(rt; player.preferred(*size), *preferred);
            assert_eq!(rt; player.place(*size), Ok(*bin));
        }
    }

    // Places each size and compares the bin.
    fn places<P: Player>(rt: &impl Abort, player: &mut P, items: &[(u16, usize)]) {
        for (size, bin) in items {
            assert_eq!(rt; player.place(*size), Ok(*bin));
        }
    }

    #[test]
    fn best_fit(rt: HostRuntime) -> Result<(), Fail> {
        // ties to the lowest bin, then all bins too full
        places(
            &rt,
            &mut BestFit::new(2, 10)?,
            &[(4, 0), (4, 0), (4, 1), (4, 1), (4, 0)],
        );
        // the fullest that stays below, the lower of two
        places(
            &rt,
            &mut BestFit::new(3, 4)?,
            &[(2, 0), (2, 1), (1, 0), (1, 1), (1, 2)],
        );
        // R 0: always the least full
        places(
            &rt,
            &mut BestFit::new(2, 0)?,
            &[(1, 0), (1, 1), (2, 0), (1, 1)],
        );
        Ok(())
    }

    #[test]
    fn threshold(rt: HostRuntime) -> Result<(), Fail> {
        places(&rt, &mut Threshold::new(2, 1)?, &[(1, 0), (1, 1), (3, 0)]);
        places(
            &rt,
            &mut Threshold::new(2, 255)?,
            &[(127, 0), (127, 0), (127, 1), (1, 0), (1, 1)],
        );
        Ok(())
    }

    #[test]
    fn declined(rt: HostRuntime) -> Result<(), Fail> {
        let mut player = Threshold::new(2, 0)?;
        for _ in 0..32 {
            player.place(127)?;
        }
        for (size, answer) in [
            (0, Err(fault(38, 0))),
            (128, Err(fault(38, 0))),
            (32, Err(fault(39, 0))),
            (127, Err(fault(39, 0))),
            (31, Ok(0)),
            (1, Err(fault(39, 0))),
            (65535, Err(fault(38, 0))),
        ] {
            assert_eq!(rt; player.place(size), answer);
        }
        assert_eq!(rt; player.load(0), Some(2063));
        assert_eq!(rt; player.load(1), Some(2032));
        assert_eq!(rt; player.load(2), None);
        Ok(())
    }

    #[test]
    fn bins(rt: HostRuntime) -> Result<(), Fail> {
        for bins in [0, 1, 9, 65536] {
            assert_eq!(rt; BestFit::new(bins, 4).err(), Some(fault(16, 0)));
            assert_eq!(rt; Threshold::new(bins, 4).err(), Some(fault(16, 0)));
        }
        for bins in [2, 8] {
            assert_eq!(rt; BestFit::new(bins, 4)?.bins(), bins);
            assert_eq!(rt; Threshold::new(bins, 4)?.bins(), bins);
        }
        Ok(())
    }

    #[test]
    fn books(rt: HostRuntime) -> Result<(), Fail> {
        // no rows: always the least full
        places(
            &rt,
            &mut read_book([2, 0, 0].to_vec(rt.alloc())?)?,
            &[(1, 0), (1, 1)],
        );
        // two rows, then a situation that no row has
        let rows = [2, 0, 2, 0, 0, 1, 0, 1, 2, 1, 1];
        places(
            &rt,
            &mut read_book(rows.to_vec(rt.alloc())?)?,
            &[(1, 1), (2, 1), (1, 0)],
        );
        // loads above 255 have no situation
        let mut wide = read_book([2, 0, 1, 0, 0, 127, 0].to_vec(rt.alloc())?)?;
        places(
            &rt,
            &mut wide,
            &[(127, 0), (127, 1), (127, 0), (127, 1), (127, 0), (1, 1)],
        );
        Ok(())
    }

    // the same books, each by the player of its rule
    #[test]
    fn books_by_their_rule(rt: HostRuntime) -> Result<(), Fail> {
        places_by_rule(
            &rt,
            &mut open_book([2, 0, 0].to_vec(rt.alloc())?)?,
            &[(1, None, 0), (1, None, 1)],
        );
        let rows = [2, 0, 2, 0, 0, 1, 0, 1, 2, 1, 1];
        places_by_rule(
            &rt,
            &mut open_book(rows.to_vec(rt.alloc())?)?,
            &[(1, Some(1), 1), (2, Some(1), 1), (1, None, 0)],
        );
        let mut wide = open_book([2, 0, 1, 0, 0, 127, 0].to_vec(rt.alloc())?)?;
        places_by_rule(
            &rt,
            &mut wide,
            &[
                (127, Some(0), 0),
                (127, None, 1),
                (127, None, 0),
                (127, None, 1),
                (127, None, 0),
                (1, None, 1),
            ],
        );
        Ok(())
    }

    #[test]
    fn refused_books(rt: HostRuntime) -> Result<(), Fail> {
        let cases: [(&[u8], u8, usize); 9] = [
            (&[], 17, 0),
            (&[9, 0], 17, 0),
            (&[9, 0, 0], 16, 0),
            (&[1, 0, 1], 16, 0),
            (&[2, 0, 0, 0], 17, 0),
            (&[2, 0, 1, 0, 0, 1], 17, 0),
            (&[2, 0, 2, 0, 0, 1, 0, 0, 1, 9, 9], 18, 1),
            (&[2, 0, 2, 0, 1, 1, 0, 0, 9, 0, 0], 18, 1),
            (&[2, 0, 2, 0, 0, 1, 0, 0, 2, 1, 2], 19, 1),
        ];
        for (bytes, number, row) in cases {
            let read = Book::from_bytes(bytes.to_vec(rt.alloc())?).err();
            let opened = Book::open(bytes.to_vec(rt.alloc())?).err();
            for refusal in [read, opened] {
                let refused = refusal.ok_or("opened")?;
                assert_eq!(rt; refused.fault, fault(number, row));
                assert!(rt; refused.bytes.as_slice() == bytes);
            }
        }
        Ok(())
    }
}
