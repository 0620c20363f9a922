ghost use Rattle.std.specs.Prelude.{◌≡◌, ◌++◌, codes, OnOk, string_bytes};
ghost use Rattle.hex.specs.Hex.{encode_lower};
ghost use Rattle.command_ends.specs.Outcome.{line};

use mot_base::NoMemory;
use std::alloc::Global;
use std::fmt::Write;

/// Adds the line of the digest of what a party sent.
pub fn push_digest(alloc: Global, text: &mut String, digest: [u8; 32]) -> Result<(), NoMemory>
    ensures { OnOk result (string_bytes text.new
        ≡ string_bytes text.old ++ (codes "digest " ++ line (encode_lower digest))) }
{
    let digest = hex::encode(alloc, digest)?;
    write!(text, "digest {digest}\n")?;
    Ok(())
}
