//! What circuits compute.
ghost use Rattle.std.specs.Prelude.{◌≤◌, length};
ghost use Rattle.mot_base.specs.Limits.{most_file_bytes};

use mixed_circuit::{Mixed, plain, read_mixed, read_values, write_mixed};
use mot_base::MAX_FILE_LENGTH;
use std::alloc::Global;

/// The number of some bits, the least first.
fn number_of(bits: &[bool]) -> u64 {
    let mut word: u64 = 0;
    for bit in bits.iter().rev() {
        word = word.wrapping_mul(2).wrapping_add(u64::from(*bit));
    }
    word
}

/// Whether a circuit's first output has this number.
fn computes(alloc: Global, circuit: &Mixed, values: &[u8], number: u64) -> bool
    requires { length values.now ≤ most_file_bytes }
{
    let Ok(inputs) = circuit.inputs(alloc) else {
        return false;
    };
    let Ok(values) = read_values(alloc, values, &inputs, None) else {
        return false;
    };
    match plain(alloc, circuit, &values) {
        Ok(outputs) => !outputs.is_empty() && number_of(outputs.bits(0)) == number,
        Err(_) => false,
    }
}

/// The same of the text of a circuit.
fn is_computed(alloc: Global, circuit: &[u8], values: &[u8], number: u64) -> bool {
    if circuit.len() > MAX_FILE_LENGTH || values.len() > MAX_FILE_LENGTH {
        return false;
    }
    match read_mixed(alloc, circuit) {
        Ok(circuit) => computes(alloc, &circuit, values, number),
        Err(_) => false,
    }
}

/// The number of the first circuit that computes something else.
fn wrong_circuit(alloc: Global, rows: &[(&[u8], &[u8], u64)]) -> Option<usize> {
    for (at, (circuit, values, number)) in rows.iter().enumerate() {
        if !is_computed(alloc, circuit, values, *number) {
            return Some(at);
        }
    }
    None
}

// In each table: a circuit, the values of its inputs, and the number of its first output.

/// Sums, differences and products of words.
static OF_WORDS: [(&[u8], &[u8], u64); 33] = [
    (
        b"mixed 1\nparties 2\nx = input 0 A\ny = input 1 A\nz = add x y\noutput z all\n",
        b"x = 0x0\ny = 0x0\n",
        0x0,
    ),
    (
        b"mixed 1\nparties 2\nx = input 0 A\ny = input 1 A\nz = sub x y\noutput z all\n",
        b"x = 0x0\ny = 0x0\n",
        0x0,
    ),
    (
        b"mixed 1\nparties 2\nx = input 0 A\ny = input 1 A\nz = mul x y\noutput z all\n",
        b"x = 0x0\ny = 0x0\n",
        0x0,
    ),
    (
        b"mixed 1\nparties 2\nx = input 0 A\ny = input 1 A\nz = add x y\noutput z all\n",
        b"x = 0xffffffffffffffff\ny = 0x1\n",
        0x0,
    ),
    (
        b"mixed 1\nparties 2\nx = input 0 A\ny = input 1 A\nz = sub x y\noutput z all\n",
        b"x = 0xffffffffffffffff\ny = 0x1\n",
        0xfffffffffffffffe,
    ),
    (
        b"mixed 1\nparties 2\nx = input 0 A\ny = input 1 A\nz = mul x y\noutput z all\n",
        b"x = 0xffffffffffffffff\ny = 0x1\n",
        0xffffffffffffffff,
    ),
    (
        b"mixed 1\nparties 2\nx = input 0 A\ny = input 1 A\nz = add x y\noutput z all\n",
        b"x = 0xffffffffffffffff\ny = 0xffffffffffffffff\n",
        0xfffffffffffffffe,
    ),
    (
        b"mixed 1\nparties 2\nx = input 0 A\ny = input 1 A\nz = sub x y\noutput z all\n",
        b"x = 0xffffffffffffffff\ny = 0xffffffffffffffff\n",
        0x0,
    ),
    (
        b"mixed 1\nparties 2\nx = input 0 A\ny = input 1 A\nz = mul x y\noutput z all\n",
        b"x = 0xffffffffffffffff\ny = 0xffffffffffffffff\n",
        0x1,
    ),
    (
        b"mixed 1\nparties 2\nx = input 0 A\ny = input 1 A\nz = add x y\noutput z all\n",
        b"x = 0x6\ny = 0x7\n",
        0xd,
    ),
    (
        b"mixed 1\nparties 2\nx = input 0 A\ny = input 1 A\nz = sub x y\noutput z all\n",
        b"x = 0x6\ny = 0x7\n",
        0xffffffffffffffff,
    ),
    (
        b"mixed 1\nparties 2\nx = input 0 A\ny = input 1 A\nz = mul x y\noutput z all\n",
        b"x = 0x6\ny = 0x7\n",
        0x2a,
    ),
    (
        b"mixed 1\nparties 2\nx = input 0 A\ny = input 1 A\nz = add x y\noutput z all\n",
        b"x = 0x3\ny = 0x5\n",
        0x8,
    ),
    (
        b"mixed 1\nparties 2\nx = input 0 A\ny = input 1 A\nz = sub x y\noutput z all\n",
        b"x = 0x3\ny = 0x5\n",
        0xfffffffffffffffe,
    ),
    (
        b"mixed 1\nparties 2\nx = input 0 A\ny = input 1 A\nz = mul x y\noutput z all\n",
        b"x = 0x3\ny = 0x5\n",
        0xf,
    ),
    (
        b"mixed 1\nparties 2\nx = input 0 A\ny = input 1 A\nz = add x y\noutput z all\n",
        b"x = 0x8000000000000000\ny = 0x2\n",
        0x8000000000000002,
    ),
    (
        b"mixed 1\nparties 2\nx = input 0 A\ny = input 1 A\nz = sub x y\noutput z all\n",
        b"x = 0x8000000000000000\ny = 0x2\n",
        0x7ffffffffffffffe,
    ),
    (
        b"mixed 1\nparties 2\nx = input 0 A\ny = input 1 A\nz = mul x y\noutput z all\n",
        b"x = 0x8000000000000000\ny = 0x2\n",
        0x0,
    ),
    (
        b"mixed 1\nparties 2\nx = input 0 A\ny = input 1 A\nz = add x y\noutput z all\n",
        b"x = 0x100000000\ny = 0x100000000\n",
        0x200000000,
    ),
    (
        b"mixed 1\nparties 2\nx = input 0 A\ny = input 1 A\nz = sub x y\noutput z all\n",
        b"x = 0x100000000\ny = 0x100000000\n",
        0x0,
    ),
    (
        b"mixed 1\nparties 2\nx = input 0 A\ny = input 1 A\nz = mul x y\noutput z all\n",
        b"x = 0x100000000\ny = 0x100000000\n",
        0x0,
    ),
    (
        b"mixed 1\nparties 2\nx = input 0 A\ny = input 1 A\nz = add x y\noutput z all\n",
        b"x = 0xfedcba9876543210\ny = 0x123456789abcdef\n",
        0xffffffffffffffff,
    ),
    (
        b"mixed 1\nparties 2\nx = input 0 A\ny = input 1 A\nz = sub x y\noutput z all\n",
        b"x = 0xfedcba9876543210\ny = 0x123456789abcdef\n",
        0xfdb97530eca86421,
    ),
    (
        b"mixed 1\nparties 2\nx = input 0 A\ny = input 1 A\nz = mul x y\noutput z all\n",
        b"x = 0xfedcba9876543210\ny = 0x123456789abcdef\n",
        0x2236d88fe5618cf0,
    ),
    (
        b"mixed 1\nparties 2\nx = input 0 A\nz = add_const x 0\noutput z all\n",
        b"x = 0x0\n",
        0x0,
    ),
    (
        b"mixed 1\nparties 2\nx = input 0 A\nz = mul_const x 0\noutput z all\n",
        b"x = 0x0\n",
        0x0,
    ),
    (
        b"mixed 1\nparties 2\nx = input 0 A\nz = add_const x 1\noutput z all\n",
        b"x = 0xffffffffffffffff\n",
        0x0,
    ),
    (
        b"mixed 1\nparties 2\nx = input 0 A\nz = mul_const x 1\noutput z all\n",
        b"x = 0xffffffffffffffff\n",
        0xffffffffffffffff,
    ),
    (
        b"mixed 1\nparties 2\nx = input 0 A\nz = add_const x 9223372036854775808\noutput z all\n",
        b"x = 0x8000000000000000\n",
        0x0,
    ),
    (
        b"mixed 1\nparties 2\nx = input 0 A\nz = mul_const x 9223372036854775808\noutput z all\n",
        b"x = 0x8000000000000000\n",
        0x0,
    ),
    (
        b"mixed 1\nparties 2\nx = input 0 A\nz = add_const x 18446744073709551615\noutput z all\n",
        b"x = 0x5\n",
        0x4,
    ),
    (
        b"mixed 1\nparties 2\nx = input 0 A\nz = mul_const x 18446744073709551615\noutput z all\n",
        b"x = 0x5\n",
        0xfffffffffffffffb,
    ),
    (
        b"mixed 1\nparties 2\nx = input 0 A\nz = mul_const x 2\noutput z all\n",
        b"x = 0x8000000000000000\n",
        0x0,
    ),
];

#[test]
fn words_are_added_and_multiplied(rt: HostRuntime) {
    let wrong = wrong_circuit(rt.alloc(), &OF_WORDS);
    assert!(rt; wrong.is_none(), "circuit {wrong:?}");
}

/// Vectors of bits.
static OF_BITS: [(&[u8], &[u8], u64); 26] = [
    (
        b"mixed 1\nparties 2\nx = input 0 B 1\ny = input 1 B 1\nz = xor x y\noutput z all\n",
        b"x = 0x0\ny = 0x1\n",
        0x1,
    ),
    (
        b"mixed 1\nparties 2\nx = input 0 B 1\ny = input 1 B 1\nz = and x y\noutput z all\n",
        b"x = 0x0\ny = 0x1\n",
        0x0,
    ),
    (
        b"mixed 1\nparties 2\nx = input 0 B 1\nz = not x\noutput z all\n",
        b"x = 0x0\n",
        0x1,
    ),
    (
        b"mixed 1\nparties 2\nx = input 0 B 1\ny = input 1 B 1\nz = xor x y\noutput z all\n",
        b"x = 0x1\ny = 0x1\n",
        0x0,
    ),
    (
        b"mixed 1\nparties 2\nx = input 0 B 1\ny = input 1 B 1\nz = and x y\noutput z all\n",
        b"x = 0x1\ny = 0x1\n",
        0x1,
    ),
    (
        b"mixed 1\nparties 2\nx = input 0 B 1\nz = not x\noutput z all\n",
        b"x = 0x1\n",
        0x0,
    ),
    (
        b"mixed 1\nparties 2\nx = input 0 B 4\ny = input 1 B 4\nz = xor x y\noutput z all\n",
        b"x = 0xc\ny = 0xa\n",
        0x6,
    ),
    (
        b"mixed 1\nparties 2\nx = input 0 B 4\ny = input 1 B 4\nz = and x y\noutput z all\n",
        b"x = 0xc\ny = 0xa\n",
        0x8,
    ),
    (
        b"mixed 1\nparties 2\nx = input 0 B 4\nz = not x\noutput z all\n",
        b"x = 0xc\n",
        0x3,
    ),
    (
        b"mixed 1\nparties 2\nx = input 0 B 64\ny = input 1 B 64\nz = xor x y\noutput z all\n",
        b"x = 0xffffffffffffffff\ny = 0xfedcba9876543210\n",
        0x123456789abcdef,
    ),
    (
        b"mixed 1\nparties 2\nx = input 0 B 64\ny = input 1 B 64\nz = and x y\noutput z all\n",
        b"x = 0xffffffffffffffff\ny = 0xfedcba9876543210\n",
        0xfedcba9876543210,
    ),
    (
        b"mixed 1\nparties 2\nx = input 0 B 64\nz = not x\noutput z all\n",
        b"x = 0xffffffffffffffff\n",
        0x0,
    ),
    (
        b"mixed 1\nparties 2\nx = input 0 B 63\ny = input 1 B 63\nz = xor x y\noutput z all\n",
        b"x = 0x0\ny = 0x7fffffffffffffff\n",
        0x7fffffffffffffff,
    ),
    (
        b"mixed 1\nparties 2\nx = input 0 B 63\ny = input 1 B 63\nz = and x y\noutput z all\n",
        b"x = 0x0\ny = 0x7fffffffffffffff\n",
        0x0,
    ),
    (
        b"mixed 1\nparties 2\nx = input 0 B 63\nz = not x\noutput z all\n",
        b"x = 0x0\n",
        0x7fffffffffffffff,
    ),
    (
        b"mixed 1\nparties 2\nx = input 0 B 64\nz = slice x 0 1\noutput z all\n",
        b"x = 0xfedcba9876543211\n",
        0x1,
    ),
    (
        b"mixed 1\nparties 2\nx = input 0 B 64\nz = slice x 63 1\noutput z all\n",
        b"x = 0x8000000000000000\n",
        0x1,
    ),
    (
        b"mixed 1\nparties 2\nx = input 0 B 64\nz = slice x 0 64\noutput z all\n",
        b"x = 0xfedcba9876543210\n",
        0xfedcba9876543210,
    ),
    (
        b"mixed 1\nparties 2\nx = input 0 B 64\nz = slice x 4 8\noutput z all\n",
        b"x = 0xfedcba9876543210\n",
        0x21,
    ),
    (
        b"mixed 1\nparties 2\nx = input 0 B 4\nz = slice x 1 3\noutput z all\n",
        b"x = 0xa\n",
        0x5,
    ),
    (
        b"mixed 1\nparties 2\nx = input 0 B 4\ny = input 1 B 3\nz = join x y\noutput z all\n",
        b"x = 0xa\ny = 0x6\n",
        0x6a,
    ),
    (
        b"mixed 1\nparties 2\nx = input 0 B 1\ny = input 1 B 63\nz = join x y\noutput z all\n",
        b"x = 0x1\ny = 0x0\n",
        0x1,
    ),
    (
        b"mixed 1\nparties 2\nx = input 0 B 63\ny = input 1 B 1\nz = join x y\noutput z all\n",
        b"x = 0x0\ny = 0x1\n",
        0x8000000000000000,
    ),
    (
        b"mixed 1\nparties 2\nx = input 0 B 32\ny = input 1 B 32\nz = join x y\noutput z all\n",
        b"x = 0xffffffff\ny = 0x12345678\n",
        0x12345678ffffffff,
    ),
    (
        b"mixed 1\nparties 2\nz = const B 64 18446744073709551615\noutput z all\n",
        b"",
        0xffffffffffffffff,
    ),
    (
        b"mixed 1\nparties 2\nz = const B 1 0\noutput z all\n",
        b"",
        0x0,
    ),
];

#[test]
fn vectors_are_taken_bit_by_bit(rt: HostRuntime) {
    let wrong = wrong_circuit(rt.alloc(), &OF_BITS);
    assert!(rt; wrong.is_none(), "circuit {wrong:?}");
}

/// Vectors of bits that are shared by keys.
static OF_KEYED_BITS: [(&[u8], &[u8], u64); 26] = [
    (
        b"mixed 1\nparties 2\nx = input 0 Y 1\ny = input 1 Y 1\nz = xor x y\noutput z all\n",
        b"x = 0x0\ny = 0x1\n",
        0x1,
    ),
    (
        b"mixed 1\nparties 2\nx = input 0 Y 1\ny = input 1 Y 1\nz = and x y\noutput z all\n",
        b"x = 0x0\ny = 0x1\n",
        0x0,
    ),
    (
        b"mixed 1\nparties 2\nx = input 0 Y 1\nz = not x\noutput z all\n",
        b"x = 0x0\n",
        0x1,
    ),
    (
        b"mixed 1\nparties 2\nx = input 0 Y 1\ny = input 1 Y 1\nz = xor x y\noutput z all\n",
        b"x = 0x1\ny = 0x1\n",
        0x0,
    ),
    (
        b"mixed 1\nparties 2\nx = input 0 Y 1\ny = input 1 Y 1\nz = and x y\noutput z all\n",
        b"x = 0x1\ny = 0x1\n",
        0x1,
    ),
    (
        b"mixed 1\nparties 2\nx = input 0 Y 1\nz = not x\noutput z all\n",
        b"x = 0x1\n",
        0x0,
    ),
    (
        b"mixed 1\nparties 2\nx = input 0 Y 4\ny = input 1 Y 4\nz = xor x y\noutput z all\n",
        b"x = 0xc\ny = 0xa\n",
        0x6,
    ),
    (
        b"mixed 1\nparties 2\nx = input 0 Y 4\ny = input 1 Y 4\nz = and x y\noutput z all\n",
        b"x = 0xc\ny = 0xa\n",
        0x8,
    ),
    (
        b"mixed 1\nparties 2\nx = input 0 Y 4\nz = not x\noutput z all\n",
        b"x = 0xc\n",
        0x3,
    ),
    (
        b"mixed 1\nparties 2\nx = input 0 Y 64\ny = input 1 Y 64\nz = xor x y\noutput z all\n",
        b"x = 0xffffffffffffffff\ny = 0xfedcba9876543210\n",
        0x123456789abcdef,
    ),
    (
        b"mixed 1\nparties 2\nx = input 0 Y 64\ny = input 1 Y 64\nz = and x y\noutput z all\n",
        b"x = 0xffffffffffffffff\ny = 0xfedcba9876543210\n",
        0xfedcba9876543210,
    ),
    (
        b"mixed 1\nparties 2\nx = input 0 Y 64\nz = not x\noutput z all\n",
        b"x = 0xffffffffffffffff\n",
        0x0,
    ),
    (
        b"mixed 1\nparties 2\nx = input 0 Y 63\ny = input 1 Y 63\nz = xor x y\noutput z all\n",
        b"x = 0x0\ny = 0x7fffffffffffffff\n",
        0x7fffffffffffffff,
    ),
    (
        b"mixed 1\nparties 2\nx = input 0 Y 63\ny = input 1 Y 63\nz = and x y\noutput z all\n",
        b"x = 0x0\ny = 0x7fffffffffffffff\n",
        0x0,
    ),
    (
        b"mixed 1\nparties 2\nx = input 0 Y 63\nz = not x\noutput z all\n",
        b"x = 0x0\n",
        0x7fffffffffffffff,
    ),
    (
        b"mixed 1\nparties 2\nx = input 0 Y 64\nz = slice x 0 1\noutput z all\n",
        b"x = 0xfedcba9876543211\n",
        0x1,
    ),
    (
        b"mixed 1\nparties 2\nx = input 0 Y 64\nz = slice x 63 1\noutput z all\n",
        b"x = 0x8000000000000000\n",
        0x1,
    ),
    (
        b"mixed 1\nparties 2\nx = input 0 Y 64\nz = slice x 0 64\noutput z all\n",
        b"x = 0xfedcba9876543210\n",
        0xfedcba9876543210,
    ),
    (
        b"mixed 1\nparties 2\nx = input 0 Y 64\nz = slice x 4 8\noutput z all\n",
        b"x = 0xfedcba9876543210\n",
        0x21,
    ),
    (
        b"mixed 1\nparties 2\nx = input 0 Y 4\nz = slice x 1 3\noutput z all\n",
        b"x = 0xa\n",
        0x5,
    ),
    (
        b"mixed 1\nparties 2\nx = input 0 Y 4\ny = input 1 Y 3\nz = join x y\noutput z all\n",
        b"x = 0xa\ny = 0x6\n",
        0x6a,
    ),
    (
        b"mixed 1\nparties 2\nx = input 0 Y 1\ny = input 1 Y 63\nz = join x y\noutput z all\n",
        b"x = 0x1\ny = 0x0\n",
        0x1,
    ),
    (
        b"mixed 1\nparties 2\nx = input 0 Y 63\ny = input 1 Y 1\nz = join x y\noutput z all\n",
        b"x = 0x0\ny = 0x1\n",
        0x8000000000000000,
    ),
    (
        b"mixed 1\nparties 2\nx = input 0 Y 32\ny = input 1 Y 32\nz = join x y\noutput z all\n",
        b"x = 0xffffffff\ny = 0x12345678\n",
        0x12345678ffffffff,
    ),
    (
        b"mixed 1\nparties 2\nz = const Y 64 18446744073709551615\noutput z all\n",
        b"",
        0xffffffffffffffff,
    ),
    (
        b"mixed 1\nparties 2\nz = const Y 1 0\noutput z all\n",
        b"",
        0x0,
    ),
];

#[test]
fn keyed_vectors_are_taken_bit_by_bit(rt: HostRuntime) {
    let wrong = wrong_circuit(rt.alloc(), &OF_KEYED_BITS);
    assert!(rt; wrong.is_none(), "circuit {wrong:?}");
}

/// Conversions, and circuits of more parties.
static OF_CONVERSIONS: [(&[u8], &[u8], u64); 29] = [
    (
        b"mixed 1\nparties 2\nx = input 0 A\nz = a2y x\noutput z all\n",
        b"x = 0x0\n",
        0x0,
    ),
    (
        b"mixed 1\nparties 2\nx = input 0 A\nz = a2b x\noutput z all\n",
        b"x = 0x0\n",
        0x0,
    ),
    (
        b"mixed 1\nparties 2\nx = input 0 B 64\nz = b2a x\noutput z all\n",
        b"x = 0x0\n",
        0x0,
    ),
    (
        b"mixed 1\nparties 2\nx = input 0 Y 64\nz = y2a x\noutput z all\n",
        b"x = 0x0\n",
        0x0,
    ),
    (
        b"mixed 1\nparties 2\nx = input 0 B 64\nz = b2y x\noutput z all\n",
        b"x = 0x0\n",
        0x0,
    ),
    (
        b"mixed 1\nparties 2\nx = input 0 Y 64\nz = y2b x\noutput z all\n",
        b"x = 0x0\n",
        0x0,
    ),
    (
        b"mixed 1\nparties 2\nx = input 0 A\nz = a2y x\noutput z all\n",
        b"x = 0x1\n",
        0x1,
    ),
    (
        b"mixed 1\nparties 2\nx = input 0 A\nz = a2b x\noutput z all\n",
        b"x = 0x1\n",
        0x1,
    ),
    (
        b"mixed 1\nparties 2\nx = input 0 B 64\nz = b2a x\noutput z all\n",
        b"x = 0x1\n",
        0x1,
    ),
    (
        b"mixed 1\nparties 2\nx = input 0 Y 64\nz = y2a x\noutput z all\n",
        b"x = 0x1\n",
        0x1,
    ),
    (
        b"mixed 1\nparties 2\nx = input 0 B 64\nz = b2y x\noutput z all\n",
        b"x = 0x1\n",
        0x1,
    ),
    (
        b"mixed 1\nparties 2\nx = input 0 Y 64\nz = y2b x\noutput z all\n",
        b"x = 0x1\n",
        0x1,
    ),
    (
        b"mixed 1\nparties 2\nx = input 0 A\nz = a2y x\noutput z all\n",
        b"x = 0xffffffffffffffff\n",
        0xffffffffffffffff,
    ),
    (
        b"mixed 1\nparties 2\nx = input 0 A\nz = a2b x\noutput z all\n",
        b"x = 0xffffffffffffffff\n",
        0xffffffffffffffff,
    ),
    (
        b"mixed 1\nparties 2\nx = input 0 B 64\nz = b2a x\noutput z all\n",
        b"x = 0xffffffffffffffff\n",
        0xffffffffffffffff,
    ),
    (
        b"mixed 1\nparties 2\nx = input 0 Y 64\nz = y2a x\noutput z all\n",
        b"x = 0xffffffffffffffff\n",
        0xffffffffffffffff,
    ),
    (
        b"mixed 1\nparties 2\nx = input 0 B 64\nz = b2y x\noutput z all\n",
        b"x = 0xffffffffffffffff\n",
        0xffffffffffffffff,
    ),
    (
        b"mixed 1\nparties 2\nx = input 0 Y 64\nz = y2b x\noutput z all\n",
        b"x = 0xffffffffffffffff\n",
        0xffffffffffffffff,
    ),
    (
        b"mixed 1\nparties 2\nx = input 0 A\nz = a2y x\noutput z all\n",
        b"x = 0x8000000000000001\n",
        0x8000000000000001,
    ),
    (
        b"mixed 1\nparties 2\nx = input 0 A\nz = a2b x\noutput z all\n",
        b"x = 0x8000000000000001\n",
        0x8000000000000001,
    ),
    (
        b"mixed 1\nparties 2\nx = input 0 B 64\nz = b2a x\noutput z all\n",
        b"x = 0x8000000000000001\n",
        0x8000000000000001,
    ),
    (
        b"mixed 1\nparties 2\nx = input 0 Y 64\nz = y2a x\noutput z all\n",
        b"x = 0x8000000000000001\n",
        0x8000000000000001,
    ),
    (
        b"mixed 1\nparties 2\nx = input 0 B 64\nz = b2y x\noutput z all\n",
        b"x = 0x8000000000000001\n",
        0x8000000000000001,
    ),
    (
        b"mixed 1\nparties 2\nx = input 0 Y 64\nz = y2b x\noutput z all\n",
        b"x = 0x8000000000000001\n",
        0x8000000000000001,
    ),
    (
        b"mixed 1\nparties 2\nx = input 0 B 1\nz = b2a x\noutput z all\n",
        b"x = 0x1\n",
        0x1,
    ),
    (
        b"mixed 1\nparties 2\nx = input 0 Y 3\nz = y2a x\noutput z all\n",
        b"x = 0x5\n",
        0x5,
    ),
    (
        b"mixed 1\nparties 2\nz = const A 18446744073709551615\noutput z all\n",
        b"",
        0xffffffffffffffff,
    ),
    (
        b"mixed 1\nparties 3\nx = input 0 A\ny = input 1 A\np = mul x y\nu = a2y p\nv = y2b u\nz = b2a v\noutput z all\n",
        b"x = 0xffffffffffffffff\ny = 0x1\n",
        0xffffffffffffffff,
    ),
    (
        b"mixed 1\nparties 8\na = input 0 A\nb = input 1 A\nc = input 2 A\nd = input 3 A\ne = input 4 A\nf = input 5 A\ng = input 6 A\nh = input 7 A\ns1 = add a b\ns2 = add s1 c\ns3 = add s2 d\ns4 = add s3 e\ns5 = add s4 f\ns6 = add s5 g\nz = add s6 h\noutput z all\n",
        b"a = 0xffffffffffffffff\nb = 0xffffffffffffffff\nc = 0xffffffffffffffff\nd = 0xffffffffffffffff\ne = 0xffffffffffffffff\nf = 0xffffffffffffffff\ng = 0xffffffffffffffff\nh = 0xffffffffffffffff\n",
        0xfffffffffffffff8,
    ),
];

#[test]
fn conversions_keep_the_number(rt: HostRuntime) {
    let wrong = wrong_circuit(rt.alloc(), &OF_CONVERSIONS);
    assert!(rt; wrong.is_none(), "circuit {wrong:?}");
}

static TEXT: &[u8] =
    b"# a text\n\nmixed 1\r\n\tparties 0x3\na = input 2 A\nu = input 00 B 0x8\nc = const Y 8 0xff\nd = add_const a 0x10 # more\ne = slice u 01 002\nf = join e u\n\noutput f all\noutput a 0x1";

static CANONICAL: &[u8] =
    b"mixed 1\nparties 3\na = input 2 A\nu = input 0 B 8\nc = const Y 8 255\nd = add_const a 16\ne = slice u 1 2\nf = join e u\noutput f all\noutput a 1\n";

/// Whether a text reads, and is written canonically.
fn is_canonical(alloc: Global, text: &[u8], canonical: &[u8]) -> bool {
    if text.len() > MAX_FILE_LENGTH {
        return false;
    }
    match read_mixed(alloc, text) {
        Ok(circuit) => is_written(alloc, &circuit, canonical),
        Err(_) => false,
    }
}

fn is_written(alloc: Global, circuit: &Mixed, canonical: &[u8]) -> bool {
    match write_mixed(alloc, circuit) {
        Ok(written) => written.as_slice() == canonical,
        Err(_) => false,
    }
}

#[test]
fn a_circuit_is_written_canonically(rt: HostRuntime) {
    assert!(&rt; is_canonical(rt.alloc(), TEXT, CANONICAL));
    assert!(&rt; is_canonical(rt.alloc(), CANONICAL, CANONICAL));
}
