// The printed sheet.
ghost use Rattle.std.specs.Prelude.{◌≡◌, IfOk, string_bytes};
ghost use Rattle.sheet.specs.Sheet.{sheet};

use crate::judgement::judge_file;
use lines::{accepted_line, refused_line};
use std::alloc::{AllocError, Global};

// What is printed of a certificate's bytes.
pub fn sheet_of(heap: Global, file: Vec<u8>) -> Result<String, AllocError>
    ensures { IfOk result (λ s. string_bytes s ≡ sheet file.items) }
{
    match judge_file(file) {
        Ok(verdict) => accepted_line(heap, verdict),
        Err(fault) => refused_line(heap, fault),
    }
}
