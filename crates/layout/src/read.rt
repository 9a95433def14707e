// Reading a header: numbers 1 to 7.
ghost use Rattle.std.specs.Prelude.{◌≡◌, ℕ, ◌+◌, ◌*◌, ◌<◌, ◌≤◌, length};
ghost use Rattle.certificate.specs.Faults.{number_of};
ghost use Rattle.certificate.specs.Rules.{judged, judge_all};
ghost use Rattle.certificate.specs.Lawful.{most_count};
ghost use Rattle.layout.specs.Layout.{byte, header_read, range_rule, range_rules};

use crate::header::Header;
use certificate::fault::Fault;
use certificate::limits::{LEAST_BINS, MOST_BINS, MOST_CAPACITY, MOST_CLASSES, MOST_ROWS};
use certificate::reason::Reason;

// A value from `low` to `high`, or the fault of that reason.
fn within(reason: Reason, value: usize, low: usize, high: usize) -> Result<(), Fault>
    ensures { result ≡ judged (range_rule (number_of reason) low high value) }
{
    if !(low..=high).contains(&value) {
        return Err(reason.into());
    }
    Ok(())
}

// The header keeps its ranges.
fn in_ranges(header: &Header) -> Result<(), Fault>
    ensures { result ≡ judge_all (range_rules header.now) }
{
    let capacity = usize::from(header.capacity);
    within(
        Reason::Bins,
        usize::from(header.bins),
        LEAST_BINS,
        MOST_BINS,
    )?;
    within(Reason::Capacity, capacity, 1, MOST_CAPACITY)?;
    within(
        Reason::Target,
        usize::from(header.target),
        capacity + 1,
        2 * capacity,
    )?;
    within(
        Reason::Classes,
        usize::from(header.classes),
        1,
        MOST_CLASSES,
    )?;
    within(Reason::Rows, usize::from(header.rows), 1, MOST_ROWS)
}

// The header of a file whose length is right.
pub fn read_header(file: &[u8]) -> Result<Header, Fault>
    ensures answer { result ≡ header_read file.now }
    ensures bytes { (i : ℕ) → byte file.now i ≤ most_count }
{
    let [
        bins,
        capacity,
        target,
        classes,
        rows_high,
        rows_low,
        body @ ..,
    ] = file
    else {
        return Err(Reason::ShortFile.into());
    };
    let header = Header {
        bins: *bins,
        capacity: u16::from(*capacity),
        target: u16::from(*target),
        classes: *classes,
        rows: u16::from_be_bytes([*rows_high, *rows_low]),
    };
    in_ranges(&header)?;
    if body.len() != header.body_length() {
        return Err(Reason::FileLength.into());
    }
    Ok(header)
}
