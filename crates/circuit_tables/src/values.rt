ghost use Rattle.std.specs.Prelude.{◌≡◌, ◌↔◌, true, ◌<◌, ◌≤◌, ◌+◌, ◌*◌, ◌^◌, [], length, map, take, drop, slice_index_or, All, IfOk, if◌then◌else◌};
ghost use Rattle.circuit_tables.specs.Values.{kept_of};
ghost use Rattle.mot_base.specs.Limits.{most_width};
ghost use Rattle.share_types.specs.Bits as vector;

use mot_base::NoMemory;
use share_types::Bits;
use std::alloc::Global;
use std::marker::Model;

/// The values of a table's inputs, each of which is a list of bits, the least first.
#[derive(Debug, Drop)]
pub struct Values {
    values: Vec<Vec<bool>>,
}

impl Model for Values {
    ghost use Rattle.std.specs.Prelude.{List, Bool, map};

    ghost Value = { List (List Bool) };

    ghost view = { λ v. map (λ bits. bits.items) v.values.items };
}

impl Values {
    /// The values of these bits.
    pub fn of(values: Vec<Vec<bool>>) -> Values
        ensures { result ≡ map (λ bits. bits.items) values.items }
    {
        Values { values }
    }

    /// The `width` bits of an input from bit `at` on. It takes no memory.
    pub fn bits(&self, input: u32, at: u32, width: u8) -> Bits
        requires some { 1 ≤ width }
        requires most { width ≤ most_width }
        requires there { at + width ≤ length (slice_index_or self.now input []) }
        ensures width { result.width ≡ width }
        ensures value { result.word ≡ vector.number (take width (drop at (slice_index_or self.now input
            []))) }
    {
        let bits = &self.values[input as usize];
        bits_of(bits, at as usize, width)
    }

    /// Whether an input has `width` bits from bit `at` on. One that is not there has no bits.
    pub fn has_bits(&self, input: u32, at: u32, width: u8) -> bool
        ensures { (result ≡ true) ↔ (at + width ≤ length (slice_index_or self.now input [])) }
    {
        let end = at as usize + usize::from(width);
        match self.values.get(input as usize) {
            Some(bits) => end <= bits.len(),
            None => end == 0,
        }
    }

    /// The number of each value, whose bit `i` counts `2^i`.
    pub fn numbers(&self, alloc: Global) -> Result<Vec<u64>, NoMemory>
        requires { All (λ bits. length bits ≤ most_width) self.now }
        ensures { IfOk result (λ numbers. numbers.items ≡ map vector.number self.now) }
    {
        let mut numbers = Vec::with_capacity(alloc, self.values.len())?;
        for bits in &self.values {
            numbers.push(number_of(bits))?;
        }
        Ok(numbers)
    }

    /// The same, with no bits in place of each input whose flag is false.
    pub fn keep(&self, alloc: Global, wanted: &[bool]) -> Result<Values, NoMemory>
        requires { length wanted.now ≡ length self.now }
        ensures { IfOk result (λ kept. kept ≡ kept_of wanted.now self.now) }
    {
        let mut values = Vec::with_capacity(alloc, self.values.len())?;
        for at in 0..self.values.len() {
            values.push(kept_bits(alloc, &self.values[at], wanted[at])?)?;
        }
        Ok(Values { values })
    }
}

/// Some bits, or no bits where they are not wanted.
fn kept_bits(alloc: Global, bits: &[bool], is_wanted: bool) -> Result<Vec<bool>, NoMemory>
    ensures { IfOk result (λ kept. kept.items ≡ (if is_wanted then bits.now else [])) }
{
    if is_wanted {
        Ok(bits.to_vec(alloc)?)
    } else {
        Ok(Vec::new(alloc))
    }
}

/// The vector of `width` bits from bit `at` on.
fn bits_of(bits: &[bool], at: usize, width: u8) -> Bits
    requires some { 1 ≤ width }
    requires most { width ≤ most_width }
    requires there { at + width ≤ length bits.now }
    ensures width { result.width ≡ width }
    ensures value { result.word ≡ vector.number (take width (drop at bits.now)) }
{
    let word = number_of(&bits[at..at + width as usize]);
    Bits { word, width }
}

/// The number of some bits, the least first.
pub fn number_of(bits: &[bool]) -> u64
    requires { length bits.now ≤ most_width }
    ensures value { result ≡ vector.number bits.now }
    ensures below { result < 2 ^ length bits.now }
{
    let mut word: u64 = 0;
    for (i, bit) in bits.iter().enumerate() {
        word += bit_value(*bit, i);
    }
    word
}

/// What a bit at a place adds to a number.
fn bit_value(bit: bool, at: usize) -> u64
    requires { at < most_width }
    ensures { result ≡ 2 ^ at * vector.once bit }
{
    if bit { 1 << at } else { 0 }
}
