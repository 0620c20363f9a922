ghost use Rattle.std.specs.Prelude.{◌≡◌, ◌≤◌, ◌++◌, OnOk, IfOk};
ghost use Rattle.std.specs.List.{flat_map};
ghost use Rattle.mot_base.specs.Limits.{most_file_bytes};
ghost use Rattle.dealer_files.specs.Part.{counts_of};
ghost use Rattle.dealer_files.specs.File.{mult_bytes, shared_bytes, key_bytes, key_bit_bytes, record_bytes, file_length, IsFile};

use crate::DealerPart;
use crate::head::{dealer_len, put_head};
use crate::numbers::{put_number, put_word};
use mot_base::NoMemory;
use share_types::{Key, KeyBit, MultTriple, SharedBit};
use std::alloc::{AllocError, Global};

/// The file of the part.
#[tactic(auto, unfolding(crate::specs::File::file_of))]
pub fn write_dealer(alloc: Global, part: &DealerPart) -> Result<Vec<u8>, NoMemory>
    requires { file_length part.now.parties (counts_of part.now) ≤ most_file_bytes }
    ensures { IfOk result (λ bytes. IsFile bytes.items part.now) }
{
    part.is_part();
    let length = dealer_len(part.parties(), &part.counts()) as usize;
    let mut out = Vec::with_capacity(alloc, length)?;
    put_head(&mut out, part)?;
    put_records(&mut out, part)?;
    Ok(out)
}

/// Writes all records.
fn put_records(out: &mut Vec<u8>, part: &DealerPart) -> Result<(), AllocError>
    ensures { OnOk result (out.new.items ≡ out.old.items ++ record_bytes part.now) }
{
    let (mult, bits, shared, keys) = part.records();
    put_mults(out, mult)?;
    out.extend_from_slice(bits)?;
    put_shareds(out, shared)?;
    put_key_bits(out, keys)
}

fn put_mults(out: &mut Vec<u8>, triples: &[MultTriple]) -> Result<(), AllocError>
    ensures { OnOk result (out.new.items ≡ out.old.items ++ flat_map mult_bytes triples.now) }
{
    for triple in triples {
        put_mult(out, triple)?;
    }
    Ok(())
}

fn put_mult(out: &mut Vec<u8>, triple: &MultTriple) -> Result<(), AllocError>
    ensures { OnOk result (out.new.items ≡ out.old.items ++ mult_bytes triple.now) }
{
    put_word(out, triple.a)?;
    put_word(out, triple.b)?;
    put_word(out, triple.c)
}

fn put_shareds(out: &mut Vec<u8>, bits: &[SharedBit]) -> Result<(), AllocError>
    ensures { OnOk result (out.new.items ≡ out.old.items ++ flat_map shared_bytes bits.now) }
{
    for bit in bits {
        put_shared(out, bit)?;
    }
    Ok(())
}

fn put_shared(out: &mut Vec<u8>, bit: &SharedBit) -> Result<(), AllocError>
    ensures { OnOk result (out.new.items ≡ out.old.items ++ shared_bytes bit.now) }
{
    out.push(u8::from(bit.bit))?;
    put_word(out, bit.word)
}

fn put_key_bits(out: &mut Vec<u8>, bits: &[KeyBit]) -> Result<(), AllocError>
    ensures { OnOk result (out.new.items ≡ out.old.items ++ flat_map key_bit_bytes bits.now) }
{
    for bit in bits {
        put_key_bit(out, bit)?;
    }
    Ok(())
}

fn put_key_bit(out: &mut Vec<u8>, bit: &KeyBit) -> Result<(), AllocError>
    ensures { OnOk result (out.new.items ≡ out.old.items ++ key_bit_bytes bit.now) }
{
    out.push(u8::from(bit.bit))?;
    put_keys(out, bit.times.as_slice())
}

fn put_keys(out: &mut Vec<u8>, keys: &[Key]) -> Result<(), AllocError>
    ensures { OnOk result (out.new.items ≡ out.old.items ++ flat_map key_bytes keys.now) }
{
    for key in keys {
        put_number(out, key.0)?;
    }
    Ok(())
}
