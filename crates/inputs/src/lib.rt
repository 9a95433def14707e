// Files as the programs read them: so many bytes at most, and none where a file is missing or cannot be read.
#![tactic(auto)]

ghost use Rattle.std.specs.Prelude.{◌≡◌, ◌≤◌, IfOk, IfErr, IfSome, take, vec_len};
ghost use Rattle.std.specs.IoError.{error_kind};

use std::alloc::Global;
use std::fs::File;
use std::io;
use std::io::{ErrorKind, Read};
use std::rt::Files;

// As much as is read of a file.
pub const MOST_BYTES: usize = 65536;

// The first bytes that a reader has left.
pub fn first_bytes<R: Read + Drop>(heap: Global, reader: R) -> io::Result<Vec<u8>>
    ensures few { IfOk result (λ v. vec_len v ≤ MOST_BYTES) }
    ensures bytes { IfOk result (λ v. IfSome (R.remaining reader) (λ xs. v.items ≡ take MOST_BYTES xs)) }
{
    let mut bytes = Vec::new(heap);
    reader.take(MOST_BYTES as u64).read_to_end(&mut bytes)?;
    bytes.truncate(MOST_BYTES);
    Ok(bytes)
}

// The first bytes of a file, none where it is missing or cannot be read; only want of memory stays an error.
pub fn bytes_or_none<R: Files + AllocGlobal>(rt: &R, path: &str) -> io::Result<Vec<u8>>
    ensures few { IfOk result (λ v. vec_len v ≤ MOST_BYTES) }
    ensures memory { IfErr result (λ e. error_kind e ≡ ErrorKind.OutOfMemory) }
{
    match File::open(rt, path).and_then(|file| first_bytes(rt.alloc(), file)) {
        Err(error) if error.kind() != ErrorKind::OutOfMemory => Ok(Vec::new(rt.alloc())),
        read => read,
    }
}

#[cfg(test)]
mod tests {
    use super::*;
    use std::alloc::AllocError;
    use std::fs;
    use std::test::Fail;

    const PATH: &str = "inputs_test.dat";

    // As much as is read, and a byte more than that.
    fn limit_and_more(heap: Global) -> Result<(Vec<u8>, Vec<u8>), AllocError> {
        let limit = vec![in heap; 5; MOST_BYTES]?;
        let mut more = limit.clone()?;
        more.push(6)?;
        Ok((limit, more))
    }

    #[test]
    fn readers(rt: HostRuntime) -> Result<(), Fail> {
        let short = first_bytes(rt.alloc(), [7, 0, 9].as_slice())?;
        assert_eq!(rt; short.as_slice(), [7, 0, 9].as_slice());
        let (limit, more) = limit_and_more(rt.alloc())?;
        assert!(rt; first_bytes(rt.alloc(), more.as_slice())? == limit);
        Ok(())
    }

    #[test]
    fn files(rt: HostRuntime) -> Result<(), Fail> {
        let _ = fs::remove_file(&rt, PATH);
        assert_eq!(rt; bytes_or_none(&rt, PATH)?.len(), 0, "a missing file");
        fs::write(&rt, PATH, [7, 0, 9].as_slice())?;
        assert_eq!(rt; bytes_or_none(&rt, PATH)?.as_slice(), [7, 0, 9].as_slice());
        let (limit, more) = limit_and_more(rt.alloc())?;
        fs::write(&rt, PATH, more.as_slice())?;
        assert!(rt; bytes_or_none(&rt, PATH)? == limit, "a byte too many");
        fs::remove_file(&rt, PATH)?;
        fs::create_dir(&rt, PATH)?;
        assert_eq!(rt; bytes_or_none(&rt, PATH)?.len(), 0, "a folder");
        fs::remove_dir(&rt, PATH)?;
        Ok(())
    }
}
