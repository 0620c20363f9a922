ghost use Rattle.std.specs.Prelude.{◌≡◌, ℕ, ◌<◌, ◌≤◌, ◌+◌, ◌*◌, ◌/◌, length, IfOk};
ghost use Rattle.mot_base.specs.Limits.{most_width};
ghost use Rattle.bmr_keys.specs.Wires.{Active, IsOnline};
ghost use Rattle.bmr_eval.specs.Active.{owners_of, zero_active, xor_active, slice_active, join_active};

use bmr_keys::{joined, some_keys, xored};
use mot_base::NoMemory;
use share_types::{Bits, Key, Keys, Online};
use std::alloc::Global;

/// What is seen of the wire of a public vector: masked bits and keys are 0.
pub fn eval_zero(alloc: Global, width: u8, parties: u8) -> Result<Online, NoMemory>
    requires some { 1 ≤ width }
    requires most { width ≤ most_width }
    ensures { IfOk result (IsOnline parties width zero_active) }
{
    let keys = vec![in alloc; Key(0); usize::from(width) * usize::from(parties)]?;
    Ok(Online {
        masked: Bits { word: 0, width },
        keys: Keys::new(keys),
    })
}

/// What is seen of the XOR of two wires of one width and with the same owners.
pub fn eval_xor(alloc: Global, u: &Online, v: &Online) -> Result<Online, NoMemory>
    requires width { v.now.masked.width ≡ u.now.masked.width }
    requires keys { length v.now.keys ≡ length u.now.keys }
    ensures { (n : ℕ) (a b : Active) → IsOnline n u.now.masked.width a u.now → IsOnline n u.now.masked.width b v.now →
        IfOk result (IsOnline n u.now.masked.width (xor_active a b)) }
{
    let keys = xored(alloc, u.keys.as_slice(), v.keys.as_slice())?;
    Ok(Online {
        masked: u.masked.xor(v.masked),
        keys,
    })
}

/// What is seen of some bits of a wire.
pub fn eval_slice(alloc: Global, u: &Online, at: u8, width: u8) -> Result<Online, NoMemory>
    requires some { 1 ≤ width }
    requires inside { at + width ≤ u.now.masked.width }
    requires shape { length u.now.keys ≡ u.now.masked.width * owners_of u.now }
    ensures { (n : ℕ) (a : Active) → IsOnline n u.now.masked.width a u.now →
        IfOk result (IsOnline n width (slice_active at width a)) }
{
    let owners = owners(u);
    let from = usize::from(at);
    let to = from + usize::from(width);
    let keys = some_keys(alloc, u.keys.as_slice(), from * owners, to * owners)?;
    Ok(Online {
        masked: u.masked.slice(at, width),
        keys,
    })
}

/// What is seen of the bits of a wire and behind them those of another with the same owners.
pub fn eval_join(alloc: Global, u: &Online, high: &Online) -> Result<Online, NoMemory>
    requires { u.now.masked.width + high.now.masked.width ≤ most_width }
    ensures { (n : ℕ) (a b : Active) → IsOnline n u.now.masked.width a u.now → IsOnline n high.now.masked.width b high.now →
        IfOk result (IsOnline n (u.now.masked.width + high.now.masked.width) (join_active u.now.masked.width a b)) }
{
    let keys = joined(alloc, u.keys.as_slice(), high.keys.as_slice())?;
    Ok(Online {
        masked: u.masked.join(high.masked),
        keys,
    })
}

/// How many owners an online value has keys for.
fn owners(u: &Online) -> usize
    ensures { result ≡ owners_of u.now }
{
    u.keys.as_slice().len() / usize::from(u.masked.width)
}
