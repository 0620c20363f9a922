//! What is written at the end of a text.

ghost use Rattle.std.specs.Prelude.{◌≡◌, ◌++◌, OnOk};
ghost use Rattle.std.specs.Fmt.{decimal};

use mot_base::NoMemory;
use std::alloc::Global;

/// Adds some bytes at the end.
pub fn push_text(out: &mut Vec<u8>, text: &[u8]) -> Result<(), NoMemory>
    ensures { OnOk result (out.new.items ≡ out.old.items ++ text.now) }
{
    out.extend_from_slice(text)?;
    Ok(())
}

/// Adds a number in decimal at the end.
pub fn push_number(alloc: Global, out: &mut Vec<u8>, number: u64) -> Result<(), NoMemory>
    ensures { OnOk result (out.new.items ≡ out.old.items ++ decimal number) }
{
    let text = format!(in alloc; "{number}")?;
    out.extend_from_slice(text.as_bytes())?;
    Ok(())
}
