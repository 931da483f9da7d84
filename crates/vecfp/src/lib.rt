// vecfp on a lent state.
#![tactic(auto)]

ghost use Rattle.std.specs.Prelude.{◌≡◌, map, cond, Some, None, ◌+◌, ◌*◌, ◌/◌, ◌<◌, ◌≤◌, eqb, length};
ghost use Rattle.number.specs.Bytes.{table};
ghost use Rattle.isa.specs.State.{register_bytes, loaded};
ghost use Rattle.isa.specs.Operand.{bit};
ghost use Rattle.isa.specs.Effect.{applied, count, bytes_on};
ghost use Rattle.isa.specs.Vecint as Vecint;
ghost use Rattle.isa.specs.Vecfp as Vecfp;
ghost use Rattle.masks.specs.Mask.{mask_of};
ghost use Rattle.vecfp.specs.Vectors.{x_lane, y_lane, x_side, y_side, side_byte, side_lanes, alu_lanes, result_lanes};
ghost use Rattle.vecfp.specs.Vectors.{Fills, vector_mask, vector_effect};

use float::Pattern;
use lanes::{Choice, Product, Sum};

// ---- the sides of a vector

// Where the 64 bytes of Y, or of X, begin, if they are not read as 0, and the lane that every lane uses, if it does not use its own.
#[derive(Clone, Copy)]
pub struct Side {
    pub y: bool,
    pub from: Option<u64>,
    pub lane: Option<usize>,
}

fn x_lane(generation: u64, op: u64) -> Option<usize>
    ensures { result ≡ x_lane generation op }
{
    if operand::broadcasts(generation, op, 6, 6) {
        return Some(0);
    }
    None
}

fn y_lane(generation: u64, op: u64) -> Option<usize>
    ensures { result ≡ y_lane generation op }
{
    if operand::broadcasts(generation, op, 7, 7) {
        return Some(0);
    }
    if operand::several(generation, op) {
        return None;
    }
    if operand::field(op, 38, 40) == 1 {
        return Some(operand::vecfp_value(op) as usize);
    }
    None
}

// From one vector to the next, of four at most.
fn offset(first: u64, same: bool, v: usize) -> u64
    requires { (first < 512) × (v < 4) }
    ensures { result ≡ first + cond same 0 (64 * v) }
{
    if same {
        return first;
    }
    first + 64 * (v as u64)
}

fn from_unless(zero: bool, offset: u64) -> Option<u64>
    ensures { result ≡ cond zero None (Some offset) }
{
    if zero { None } else { Some(offset) }
}

fn x_side(generation: u64, op: u64, v: usize) -> Side
    requires { v < 4 }
    ensures { result ≡ x_side generation op v }
{
    let same = operand::broadcasts(generation, op, 2, 6);
    let zero = operand::vecfp_overrides(generation, op, 4, 4);
    Side {
        y: false,
        from: from_unless(zero, offset(operand::field(op, 10, 18), same, v)),
        lane: x_lane(generation, op),
    }
}

fn y_side(generation: u64, op: u64, v: usize) -> Side
    requires { v < 4 }
    ensures { result ≡ y_side generation op v }
{
    let same = operand::broadcasts(generation, op, 3, 7);
    let zero = operand::vecfp_overrides(generation, op, 5, 5);
    Side {
        y: true,
        from: from_unless(zero, offset(operand::field(op, 0, 8), same, v)),
        lane: y_lane(generation, op),
    }
}

fn side_bytes(state: &[u8], side: Side) -> [u8; 64]
    ensures { result ≡ table (side_byte state.now side) 0 64 }
{
    match side.from {
        None => [0; 64],
        Some(from) => state::load(state, side.y, from),
    }
}

// ---- lanes of N numbers, which fill a row

// What the lanes use of a side.
fn side_lanes<T: Pattern, const N: usize>(state: &[u8], side: Side) -> [T; N]
    requires { Fills T.format T.BYTES N }
    ensures { map T.bits result ≡ side_lanes T.format state.now side }
{
    let words: [T; N] = state::words(&side_bytes(state, side));
    match side.lane {
        None => words,
        Some(lane) => [words[lane % N]; N],
    }
}

// An operation of all lanes, by the mode.
fn by_mode<T: Pattern, const N: usize>(mode: u64, x: &[T; N], y: &[T; N], z: &[T; N]) -> [T; N]
    requires { Fills T.format T.BYTES N }
    ensures { map T.bits result ≡ alu_lanes T.format mode (map T.bits x.now) (map T.bits y.now) (map T.bits z.now) }
{
    match mode {
        4 => lanes::each::<Choice, T, N>(x, y),
        10 => lanes::each::<Product, T, N>(x, y),
        11 => lanes::each::<Sum, T, N>(z, x),
        _ => lanes::each::<Sum, T, N>(z, y),
    }
}

// What the lanes receive, which is 0 where an override forces it.
fn results<T: Pattern, const N: usize>(
    generation: u64,
    op: u64,
    x: &[T; N],
    y: &[T; N],
    z: &[T; N],
    zeros: &[T; N],
) -> [T; N]
    requires { Fills T.format T.BYTES N × (map T.bits zeros.now ≡ table (λ l. 0) 0 N) }
    ensures { map T.bits result ≡ result_lanes T.format generation op (map T.bits x.now) (map T.bits y.now) (map T.bits z.now) }
{
    if operand::vecfp_overrides(generation, op, 3, 1) {
        return *zeros;
    }
    by_mode(operand::alu_mode(op), x, y, z)
}

// Vector v.
fn vector<T: Pattern, const N: usize>(
    state: &mut [u8; 5120],
    generation: u64,
    op: u64,
    v: usize,
    on: &[bool; N],
    zeros: &[T; N],
)
    requires { Fills T.format T.BYTES N × (map T.bits zeros.now ≡ table (λ l. 0) 0 N)
        × (v < 64 / Vecint.stride generation op) × (Vecfp.format_of op ≡ T.format) × (on.now ≡ vector_mask T.format generation op) }
    ensures { state.new ≡ applied (vector_effect generation op v state.old) state.old }
{
    let row = operand::vecfp_row(generation, op, v);
    let x: [T; N] = side_lanes(state, x_side(generation, op, v));
    let y: [T; N] = side_lanes(state, y_side(generation, op, v));
    let z: [T; N] = state::row(state, row);
    let out = results(generation, op, &x, &y, &z, zeros);
    state::put_row(state, row, &out, on);
}

// All vectors.
fn all_vectors<T: Pattern, const N: usize>(
    state: &mut [u8; 5120],
    generation: u64,
    op: u64,
    on: &[bool; N],
    zeros: &[T; N],
)
    requires { Fills T.format T.BYTES N × (map T.bits zeros.now ≡ table (λ l. 0) 0 N)
        × (Vecfp.format_of op ≡ T.format) × (on.now ≡ vector_mask T.format generation op) }
    ensures { state.new ≡ applied (Vecfp.vecfp generation op) state.old }
{
    let vectors = operand::vectors(generation, op);
    for v in 0..vectors {
        vector(state, generation, op, v, on, zeros);
    }
}

// ---- the step

fn each_vector(state: &mut [u8; 5120], generation: u64, op: u64, mask: u64)
    requires { mask ≡ mask_of (Vecfp.enabled generation op) 64 }
    ensures { state.new ≡ applied (Vecfp.vecfp generation op) state.old }
{
    if operand::single(op) {
        all_vectors(state, generation, op, &masks::lanes(mask), &[0u32; 16]);
        return;
    }
    all_vectors(state, generation, op, &masks::lanes(mask), &[0u64; 8]);
}

// The bytes of a vector's enabled lanes.
fn vector_bytes(op: u64, mask: u64) -> u64
    ensures { (result ≡ count (bit mask) (Vecfp.lanes op) * Vecfp.width (Vecfp.format_of op)) × (result ≤ 512) }
{
    masks::count_first(mask, operand::vecfp_lanes(op)) * operand::vecfp_width(op)
}

// Each vector enables the same lanes.
fn bytes_enabled(generation: u64, op: u64, mask: u64) -> u64
    requires { mask ≡ mask_of (Vecfp.enabled generation op) 64 }
    ensures { result ≡ bytes_on (Vecfp.vecfp generation op) }
{
    operand::vectors(generation, op) as u64 * vector_bytes(op, mask)
}

// vecfp on a state of 5,120 bytes, and the count of bytes in enabled lanes; a state of another length stays as it is.
pub fn step(state: &mut [u8], generation: u64, op: u64) -> u64
    ensures { (state.new ≡ cond (eqb (length state.old) register_bytes)
        (applied (Vecfp.vecfp generation op) state.old) state.old)
        × (result ≡ cond (eqb (length state.old) register_bytes) (bytes_on (Vecfp.vecfp generation op)) 0) }
{
    let Some(registers) = state.as_mut_array() else {
        return 0;
    };
    let mask = masks::vecfp_mask(generation, op);
    each_vector(registers, generation, op, mask);
    bytes_enabled(generation, op, mask)
}
