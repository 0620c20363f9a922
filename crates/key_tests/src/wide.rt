//! The garbled AND of 64 bits of eight parties, whose secrets are numbers of one rule. `.ci/garbled` makes the same
//! numbers, garbles and evaluates by itself, and compares what is stated here.
ghost use Rattle.std.specs.Prelude.{◌≡◌, ◌<◌, ◌≤◌, length, All, IfOk, IfSome};

use bmr_eval::eval_and;
use bmr_garble::{Table, mask_close, mask_open, product_close, table_share};
use bmr_keys::{MaskPart, is_set, key_payload, zero_key};
use mot_base::{Party, Seed, derive};
use sha2::{Digest, Sha256};
use share_types::{BitTriple, Bits, Key, KeyBit, Keys, Online};
use std::alloc::Global;
use std::test::Fail;

// what is opened of the masks, and of the shares of the product and the records' bits
const OPENED: [u64; 3] = [0x319301868fd9215c, 0x5295028195f9e12c, 0x318a81454f25f0a2];

// the SHA-256 of the joined table's keys
const TABLE: &str = "8a92db090b93bad0397355f2a121b10dc5f8b4281cb6161445886839d0ebb233";

// the masked bits of the result, and the SHA-256 of its active keys
const MASKED: u64 = 0xb5ad44a324120eb9;

const KEYS: &str = "560e50ebe03af7eaa7fdb139e342df64151691adce8de249334830e8ec656f32";

// what is multiplied by a place
const FACTOR: u128 = 0x9e3779b97f4a7c15f39cc0605cedc835;

/// The number of a place.
fn number(place: u64) -> u128 {
    (u128::from(place) + 1).wrapping_mul(FACTOR)
}

/// The word of a place.
fn word(place: u64) -> u64 {
    (number(place) % (1 << 64)) as u64
}

/// A party's offset.
fn offset(party: u8) -> Key {
    Key(number(u64::from(party)) | 1)
}

/// A vector of 64 bits.
fn wide(word: u64) -> Bits
    ensures { result.width ≡ 64 }
{
    Bits { word, width: 64 }
}

/// The vector that is shared: by kind 0 to 2 the masks of the inputs and of the result, 3 the bits of the records of
/// the product, and 4 to 6 the triple.
fn whole(kind: u8) -> u64 {
    if kind == 6 {
        word(14) & word(15)
    } else {
        word(10 + u64::from(kind))
    }
}

/// A party's share of a vector.
fn share(kind: u8, party: u8) -> u64
    requires { party < 8 }
{
    let first = 100 + 8 * u64::from(kind);
    let own = word(first + u64::from(party));
    let other = word(first + u64::from((party + 1) % 8));
    own ^ other ^ if party == 0 { whole(kind) } else { 0 }
}

/// The place of a party's key of a bit and an owner.
fn key_place(kind: u8, party: u8, bit: u8, owner: u8) -> u64 {
    let record = (8 * u64::from(kind) + u64::from(party)) * 64 + u64::from(bit);
    1000 + record * 8 + u64::from(owner)
}

/// A party's share of a bit times an owner's offset.
fn times(kind: u8, party: u8, bit: u8, owner: u8) -> Key
    requires party { party < 8 }
    requires bit { bit < 64 }
{
    let own = number(key_place(kind, party, bit, owner));
    let other = number(key_place(kind, (party + 1) % 8, bit, owner));
    let all = if party == 0 && is_set(whole(kind), bit) {
        offset(owner).0
    } else {
        0
    };
    Key(own ^ other ^ all)
}

/// A party's key record of a bit.
fn key_record(alloc: Global, kind: u8, party: u8, bit: u8) -> Result<KeyBit, Fail>
    requires party { party < 8 }
    requires bit { bit < 64 }
    ensures { IfOk result (λ k. length k.times ≡ 8) }
{
    let mut keys = Vec::new(alloc);
    for owner in 0..8 {
        keys.push(times(kind, party, bit, owner))?;
    }
    Ok(KeyBit {
        bit: is_set(share(kind, party), bit),
        times: Keys::new(keys),
    })
}

/// A party's key records of 64 bits.
fn key_records(alloc: Global, kind: u8, party: u8) -> Result<Vec<KeyBit>, Fail>
    requires { party < 8 }
    ensures count { IfOk result (λ records. length records.items ≡ 64) }
    ensures owners { IfOk result (λ records. All (λ k. length k.times ≡ 8) records.items) }
{
    let mut records = Vec::new(alloc);
    for bit in 0..64 {
        records.push(key_record(alloc, kind, party, bit)?)?;
    }
    Ok(records)
}

/// The seed of a party's tape.
fn seed(party: u8) -> Seed {
    derive(&Seed([0; 32]), party)
}

/// A party's part of a mask, from its key records.
fn mask(alloc: Global, kind: u8, party: u8) -> Result<MaskPart, Fail>
    requires kind { kind < 3 }
    requires party { party < 8 }
    ensures width { IfOk result (λ part. part.mask.width ≡ 64) }
    ensures keys { IfOk result (λ part. length part.keys ≡ 64) }
    ensures times { IfOk result (λ part. length part.times ≡ 512) }
{
    let stock = key_records(alloc, kind, party)?;
    let first = 64 * u32::from(kind);
    Ok(MaskPart::from_stock(alloc, stock.as_slice(), &seed(party), first, 8)?)
}

/// A party's part of the triples.
fn triple(party: u8) -> BitTriple
    requires { party < 8 }
    ensures { result.a.width ≡ 64 }
{
    BitTriple {
        a: wide(share(4, party)),
        b: wide(share(5, party)),
        c: wide(share(6, party)),
    }
}

/// What all parties open of the masks of the inputs.
fn masks_opened(alloc: Global) -> Result<(u64, u64), Fail> {
    let (mut d, mut e) = (0, 0);
    for party in 0..8 {
        let u = mask(alloc, 0, party)?;
        let v = mask(alloc, 1, party)?;
        let (left, right) = mask_open(&u, &v, triple(party));
        d ^= left.word;
        e ^= right.word;
    }
    Ok((d, e))
}

/// What they open of their shares of the product and their records' bits.
fn product_opened(d: u64, e: u64) -> u64 {
    let mut f = 0;
    for party in 0..8 {
        let product = mask_close(Party(party), triple(party), wide(d), wide(e));
        f ^= product.word ^ share(3, party);
    }
    f
}

/// A party's shares of the product times each offset.
fn product(alloc: Global, party: u8, f: u64) -> Result<Vec<Key>, Fail>
    requires { party < 8 }
    ensures { IfOk result (λ keys. length keys.items ≡ 512) }
{
    let stock = key_records(alloc, 3, party)?;
    Ok(product_close(
        alloc,
        Party(party),
        offset(party),
        stock.as_slice(),
        wide(f),
    )?)
}

/// A party's share of the table.
fn share_of_table(alloc: Global, party: u8, f: u64) -> Result<Table, Fail>
    requires { party < 8 }
{
    let u = mask(alloc, 0, party)?;
    let v = mask(alloc, 1, party)?;
    let w = mask(alloc, 2, party)?;
    let product = product(alloc, party, f)?;
    Ok(table_share(
        alloc,
        Party(party),
        offset(party),
        5,
        &u,
        &v,
        &w,
        product.as_slice(),
    )?)
}

/// The joined table, or none where a share has another length.
fn joined(alloc: Global, f: u64) -> Result<Option<Table>, Fail>
    ensures { IfOk result (λ table. IfSome table (λ t. (t.width ≡ 64) × (t.parties ≡ 8) × (length t.rows ≡ 2048))) }
{
    let keys = vec![in alloc; Key(0); 2048]?;
    let mut table = Table {
        width: 64,
        parties: 8,
        rows: Keys::new(keys),
    };
    for party in 0..8 {
        let share = share_of_table(alloc, party, f)?;
        if share.rows.as_slice().len() != 2048 {
            return Ok(None);
        }
        table.table_join(&share);
    }
    Ok(Some(table))
}

/// An owner's active key of a bit.
fn active(kind: u8, masked: u64, bit: u8, owner: u8) -> Key
    requires { bit < 64 }
{
    let key = zero_key(&seed(owner), 64 * u32::from(kind) + u32::from(bit));
    if is_set(masked, bit) {
        Key(key.0 ^ offset(owner).0)
    } else {
        key
    }
}

/// What is seen of an input.
fn online(alloc: Global, kind: u8, masked: u64) -> Result<Online, Fail>
    ensures width { IfOk result (λ online. online.masked.width ≡ 64) }
    ensures keys { IfOk result (λ online. length online.keys ≡ 512) }
{
    let mut keys = Vec::new(alloc);
    for place in 0..512u16 {
        keys.push(active(kind, masked, (place / 8) as u8, (place % 8) as u8))?;
    }
    Ok(Online {
        masked: wide(masked),
        keys: Keys::new(keys),
    })
}

/// What is seen of the result, by the joined table.
fn evaluated(alloc: Global, table: &Table) -> Result<Online, Fail>
    requires width { table.now.width ≡ 64 }
    requires parties { table.now.parties ≡ 8 }
    requires rows { length table.now.rows ≡ 2048 }
{
    let left = online(alloc, 0, word(20) ^ whole(0))?;
    let right = online(alloc, 1, word(21) ^ whole(1))?;
    Ok(eval_and(alloc, table, 5, &left, &right)?)
}

/// Whether the SHA-256 of keys is this.
fn have_digest(alloc: Global, keys: &[Key], text: &str) -> Result<bool, Fail> {
    let payload = key_payload(alloc, keys)?;
    let digest = hex::encode(alloc, Sha256::digest(payload.bytes()).as_slice())?;
    Ok(digest.as_str() == text)
}

/// Whether the parties open, garble and evaluate as is stated.
fn is_as_stated(alloc: Global) -> Result<bool, Fail> {
    let (d, e) = masks_opened(alloc)?;
    let f = product_opened(d, e);
    let Some(table) = joined(alloc, f)? else {
        return Ok(false);
    };
    let result = evaluated(alloc, &table)?;
    let opens = d == OPENED[0] && e == OPENED[1] && f == OPENED[2];
    let garbles = have_digest(alloc, table.rows.as_slice(), TABLE)?;
    let evaluates = have_digest(alloc, result.keys.as_slice(), KEYS)?;
    Ok(opens && garbles && evaluates && result.masked.word == MASKED)
}

#[test]
fn eight_parties_garble_64_bits(rt: HostRuntime) -> Result<(), Fail> {
    let same = is_as_stated(rt.alloc())?;
    assert!(rt; same);
    Ok(())
}
