// The 64 bytes of X and of Y that a vector of vecint uses. Every open function takes every argument.
#![tactic(auto)]

ghost use Rattle.std.specs.Prelude.{◌≡◌, true, false, cond, ◌+◌, ◌*◌, ◌%◌, ◌^◌, ◌<◌, ◌≤◌, eqb};
ghost use Rattle.number.specs.Bytes.{byte_at, table};
ghost use Rattle.isa.specs.Vecint as Vecint;
ghost use Rattle.sides.specs.Sides.{lane_bytes};
ghost use Rattle.loads.specs.Loads.{advance_by, indexes_of, width_of, first_of, repeats_of, zero_of, side_of, bytes_of};

// ---- an indexed load

// Where index k begins among the bits.
fn first_bit(four: bool, k: usize) -> usize
    requires { k < 64 }
    ensures { (result ≡ k * Vecint.index_width four) × (result < 256) }
{
    if four {
        return k * 4;
    }
    k * 2
}

// As many low bits as an index has.
fn low_bits(four: bool, n: u8) -> usize
    ensures { (result ≡ n % 2 ^ Vecint.index_width four) × (result < 16) }
{
    if four {
        return (n % 16) as usize;
    }
    (n % 4) as usize
}

// Index k of those packed in 64 bytes.
fn index_at(packed: &[u8; 64], four: bool, k: usize) -> usize
    requires { k < 64 }
    ensures { (result ≡ Vecint.index_at (Vecint.index_width four) (byte_at packed.now) k) × (result < 16) }
{
    let at = first_bit(four, k);
    low_bits(four, packed[at / 8] >> (at % 8))
}

// Byte i of the elements that the indices name, of two bytes or of one.
fn picked(packed: &[u8; 64], register: &[u8; 64], wide: bool, four: bool, i: usize) -> u8
    requires { i < 64 }
    ensures { result ≡ Vecint.picked (lane_bytes wide) (Vecint.index_width four) (byte_at packed.now) (byte_at register.now) i }
{
    if wide {
        return register[2 * index_at(packed, four, i / 2) + i % 2];
    }
    register[index_at(packed, four, i)]
}

// The elements of a register that packed indices name.
fn picks(packed: &[u8; 64], register: &[u8; 64], wide: bool, four: bool) -> [u8; 64]
    ensures { result ≡ table (Vecint.picked (lane_bytes wide) (Vecint.index_width four)
        (byte_at packed.now) (byte_at register.now)) 0 64 }
{
    std::array::from_fn(|i| picked(packed, register, wide, four, i))
}

// The same, with the widths told to the compiler, which makes a loop for each.
fn indexed(packed: &[u8; 64], register: &[u8; 64], wide: bool, four: bool) -> [u8; 64]
    ensures { result ≡ table (Vecint.picked (lane_bytes wide) (Vecint.index_width four)
        (byte_at packed.now) (byte_at register.now)) 0 64 }
{
    match (wide, four) {
        (true, true) => picks(packed, register, true, true),
        (true, false) => picks(packed, register, true, false),
        (false, true) => picks(packed, register, false, true),
        (false, false) => picks(packed, register, false, false),
    }
}

// ---- the parts of an operand that are a side's: of Y, or of X

// Whether the side's load is indexed.
fn indexes(op: u64, y: bool) -> bool
    ensures { result ≡ indexes_of y op }
{
    if operand::flag(op, 53) {
        if y {
            return operand::flag(op, 47);
        }
        return !operand::flag(op, 47);
    }
    false
}

fn wide_lanes(op: u64, y: bool) -> bool
    ensures { result ≡ eqb (width_of y op) 2 }
{
    if y {
        return operand::y_width(op) == 2;
    }
    operand::x_width(op) == 2
}

fn first_offset(op: u64, y: bool) -> u64
    ensures { (result ≡ first_of y op) × (result < 512) }
{
    if y {
        return operand::field(op, 0, 8);
    }
    operand::field(op, 10, 18)
}

// Whether the offset stays from vector to vector.
fn repeats(generation: u64, op: u64, y: bool) -> bool
    ensures { result ≡ repeats_of y generation op }
{
    if y {
        return operand::broadcasts(generation, op, 3, 7);
    }
    operand::broadcasts(generation, op, 2, 6)
}

// Whether the side is read as 0: left out by the mode, or by an override.
fn blank(generation: u64, op: u64, y: bool, skip: bool) -> bool
    ensures { result ≡ cond skip true (zero_of y generation op) }
{
    if skip {
        return true;
    }
    if y {
        return operand::overrides(generation, op, 5, 5);
    }
    operand::overrides(generation, op, 4, 4)
}

// ---- a side's bytes for vector v

// Where they begin, if they advance by so many bytes.
fn offset(generation: u64, op: u64, y: bool, step: u64, v: usize) -> u64
    requires { (step ≤ 64) × (v < 4) }
    ensures { result ≡ first_of y op + cond (repeats_of y generation op) 0 (step * v) }
{
    let first = first_offset(op, y);
    if repeats(generation, op, y) {
        return first;
    }
    first + step * (v as u64)
}

// 64 times the bits of an index, over those of a lane.
fn advance_by(four: bool, wide: bool) -> u64
    ensures { (result ≡ advance_by four wide) × (result ≤ 64) }
{
    if four {
        return if wide { 16 } else { 32 };
    }
    if wide { 8 } else { 16 }
}

// 64 bytes and the width of their elements: two bytes, or one.
#[derive(Clone, Copy)]
struct Elements {
    bytes: [u8; 64],
    wide: bool,
}

// The elements that the bytes loaded name. In a struct, since a caller's array that a call may write is kept in memory, and then a load without
// indices pays for it.
fn indexed_bytes(state: &[u8], generation: u64, op: u64, y: bool, v: usize) -> Elements
    requires { v < 4 }
    ensures { (result.bytes ≡ table (side_of y generation op state.now v true) 0 64) × (result.wide ≡ eqb (width_of y op) 2) }
{
    let wide = wide_lanes(op, y);
    let four = operand::flag(op, 48);
    let from = offset(generation, op, y, advance_by(four, wide), v);
    let place = 64 * operand::field(op, 49, 51);
    let packed = state::load(state, y, from);
    let register = state::load(state, y, place);
    let bytes = indexed(&packed, &register, wide, four);
    Elements {
        bytes: bytes,
        wide: wide,
    }
}

// The bytes loaded.
fn plain_bytes(state: &[u8], generation: u64, op: u64, y: bool, v: usize) -> [u8; 64]
    requires { v < 4 }
    ensures { result ≡ table (side_of y generation op state.now v false) 0 64 }
{
    state::load(state, y, offset(generation, op, y, 64, v))
}

// ---- X and Y, for vector v of four at most, and 0 where the mode leaves the side out
// A function for each, since one for both is not inlined, and every step then pays for the call.

pub fn x_bytes(state: &[u8], generation: u64, op: u64, v: usize, skip: bool) -> [u8; 64]
    ensures { result ≡ bytes_of false generation op state.now (v % 4) skip }
{
    if blank(generation, op, false, skip) {
        return [0u8; 64];
    }
    if indexes(op, false) {
        let named = indexed_bytes(state, generation, op, false, v % 4);
        return named.bytes;
    }
    plain_bytes(state, generation, op, false, v % 4)
}

pub fn y_bytes(state: &[u8], generation: u64, op: u64, v: usize, skip: bool) -> [u8; 64]
    ensures { result ≡ bytes_of true generation op state.now (v % 4) skip }
{
    if blank(generation, op, true, skip) {
        return [0u8; 64];
    }
    if indexes(op, true) {
        let named = indexed_bytes(state, generation, op, true, v % 4);
        return named.bytes;
    }
    plain_bytes(state, generation, op, true, v % 4)
}
