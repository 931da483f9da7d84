// mac16 on a lent state.
#![tactic(auto)]

ghost use Rattle.std.specs.Prelude.{◌≡◌, true, false, cond, not, ◌+◌, ◌*◌, ◌/◌, ◌%◌, ◌≤◌, ◌<◌, eqb, pos, length, get_or, replicate};
ghost use Rattle.number.specs.Bytes.{byte_at, table};
ghost use Rattle.isa.specs.Operand.{bits, bit};
ghost use Rattle.isa.specs.State.{register_bytes};
ghost use Rattle.isa.specs.Enable.{mac16_enables};
ghost use Rattle.isa.specs.Effect.{applied, bytes_on, count};
ghost use Rattle.isa.specs.Mac16 as Mac16;
ghost use Rattle.isa.specs.Mac16.{vector, matrix16, matrix32};
ghost use Rattle.state.specs.Rows.{run_sum};
ghost use Rattle.masks.specs.Mask.{mask_of};
ghost use Rattle.mac16.specs.Products.{side, masked, other_than_x, term, row_terms, split, products, x_side, x_factors, y_factors, products_of};

use number::{Integer, Lane};

// ---- factors

// The 32 factors of a side, and its enabled lanes.
#[derive(Drop)]
struct Side {
    lanes: [i16; 32],
    on: [bool; 32],
}

// What becomes of a product: shifted to the right and added to Z or, where `keep` is false, put in its place.
#[derive(Clone, Copy)]
struct Sum {
    shift: u32,
    keep: bool,
}

// The 32 lanes of 64 bytes, as i16 and as the i8 in the low byte of each.
fn lanes16(bytes: &[u8; 64]) -> [i16; 32]
    ensures { result ≡ table (Mac16.lane false (byte_at bytes.now)) 0 32 }
{
    std::array::from_fn(|i| u16::load(bytes, 2 * i).cast_signed())
}

fn lanes8(bytes: &[u8; 64]) -> [i16; 32]
    ensures { result ≡ table (Mac16.lane true (byte_at bytes.now)) 0 32 }
{
    std::array::from_fn(|i| i16::from(u8::load(bytes, 2 * i).cast_signed()))
}

// The 32 numbers of a side.
fn side_of(bytes: &[u8; 64], byte: bool, skip: bool, other: i16) -> [i16; 32]
    ensures { result ≡ table (side byte skip other bytes.now) 0 32 }
{
    if skip {
        return [other; 32];
    }
    if byte { lanes8(bytes) } else { lanes16(bytes) }
}

fn kept_if(x: i16, on: bool) -> i16
    ensures { result ≡ cond on x (pos 0) }
{
    if on { x } else { 0 }
}

fn masked_by(on: &[bool; 32], xs: &[i16; 32]) -> [i16; 32]
    ensures { result ≡ masked on.now xs.now }
{
    std::array::from_fn(|i| kept_if(xs[i], on[i]))
}

// ---- terms

fn term<T: Integer>(x: i16, y: i16, s: u32) -> T
    ensures { T.bits result ≡ term T.BYTES (s % 32) x y }
{
    T::wrapped(number::shifted(number::product16(x, y), s))
}

fn terms16(xs: &[i16; 32], ys: &[i16; 32], s: u32) -> [u16; 32]
    ensures { result ≡ row_terms 2 32 (s % 32) xs.now ys.now }
{
    std::array::from_fn(|i| term(xs[i], ys[i], s))
}

// ---- what an operand says

// The lanes that an enable value, of 5 bits, and the mode of 2 bits above it enable.
fn enabled(op: u64, at: u32) -> u64
    requires { at < 64 }
    ensures { result ≡ mask_of (mac16_enables 32 (bits op (at + 5) (at + 6)) (bits op at (at + 4))) 64 }
{
    let mode = operand::field(op, at + 5, at + 6);
    masks::mac16_mask(32, mode, operand::field(op, at, at + 4))
}

fn x_mask(op: u64) -> u64
    ensures { result ≡ mask_of (Mac16.x_enabled op) 64 }
{
    enabled(op, 41)
}

fn y_mask(op: u64) -> u64
    ensures { result ≡ mask_of (Mac16.y_enabled op) 64 }
{
    enabled(op, 32)
}

fn z_row(op: u64) -> usize
    ensures { (result ≡ bits op 20 25) × (result < 64) }
{
    operand::field(op, 20, 25) as usize
}

fn sum_of(op: u64) -> Sum
    ensures { (result.shift ≡ bits op 55 59) × (result.shift < 32) × (result.keep ≡ not (bit op 27)) }
{
    Sum {
        shift: operand::field(op, 55, 59) as u32,
        keep: !operand::flag(op, 27),
    }
}

fn other_than_x(op: u64) -> i16
    ensures { result ≡ other_than_x op }
{
    if operand::flag(op, 28) { 0 } else { 1 }
}

fn x_side(state: &[u8], op: u64) -> [i16; 32]
    ensures { result ≡ x_side op state.now }
{
    let bytes = state::load(state, false, operand::field(op, 10, 18));
    side_of(
        &bytes,
        operand::flag(op, 61),
        operand::flag(op, 29),
        other_than_x(op),
    )
}

fn x_factors(state: &[u8], op: u64, on: &[bool; 32]) -> [i16; 32]
    ensures { result ≡ x_factors op state.now on.now }
{
    let xs = x_side(state, op);
    masked_by(on, &xs)
}

fn y_factors(state: &[u8], op: u64) -> [i16; 32]
    ensures { result ≡ y_factors op state.now }
{
    let bytes = state::load(state, true, operand::field(op, 0, 8));
    side_of(&bytes, operand::flag(op, 60), operand::flag(op, 28), 1)
}

// ---- rows

fn row16(state: &mut [u8; 5120], row: usize, x: &Side, ys: &[i16; 32], sum: Sum)
    ensures { state.new ≡ applied (run_sum 2 row 1 (row_terms 2 32 (sum.shift % 32) x.now.lanes ys.now) x.now.on sum.keep) state.old }
{
    let terms = terms16(&x.lanes, ys, sum.shift);
    state::sum_row16(state, row, &terms, &x.on, sum.keep);
}

// Rows 2 j and 2 j + 1 of 32-bit lanes. One loop makes the terms, masked, and adds them: the compiler unrolls shorter ones, and does one lane at a time.
fn pair32(state: &mut [u8; 5120], j: usize, x: &Side, ys: &[i16; 32], sum: Sum)
    requires { j < 32 }
    ensures { state.new ≡ applied (run_sum 4 (j * 2) 2 (row_terms 4 32 (sum.shift % 32) (masked x.now.on x.now.lanes) ys.now)
        x.now.on sum.keep) state.old }
{
    let row = j * 2;
    for i in 0..32 {
        let term: u32 = term(kept_if(x.lanes[i], x.on[i]), ys[i], sum.shift);
        state::sum_lane(state, 1024 + (row * 64 + i * 4), term, x.on[i], sum.keep);
    }
}

// Row 2 j + p of matrix 16, where Y lane j is enabled.
fn matrix16_row(state: &mut [u8; 5120], j: usize, p: usize, x: &Side, y: &Side, sum: Sum)
    requires { (j < 32) × (p < 2) }
    ensures { state.new ≡ cond (get_or y.now.on j false)
        (applied (run_sum 2 (2 * j + p) 1 (row_terms 2 32 (sum.shift % 32) x.now.lanes (replicate 32 (get_or y.now.lanes j (pos 0))))
        x.now.on sum.keep) state.old)
        state.old }
{
    if !y.on[j] {
        return;
    }
    let same = [y.lanes[j]; 32];
    row16(state, 2 * j + p, x, &same, sum);
}

fn matrix16(state: &mut [u8; 5120], p: usize, x: &Side, y: &Side, sum: Sum)
    requires { p < 2 }
    ensures { state.new ≡
        applied (products Mac16.matrix16 p x.now.lanes x.now.on y.now.lanes y.now.on (sum.shift % 32) sum.keep) state.old }
{
    for j in 0..32 {
        matrix16_row(state, j, p, x, y, sum);
    }
}

// The even X lanes and then the odd ones, as the two rows of a pair have them; the same for their mask.
fn split<T: Copy>(xs: &[T; 32]) -> [T; 32]
    ensures { (d : T) → result ≡ split d xs.now }
{
    std::array::from_fn(
        |k| -> T
            requires { k < 32 }
            ensures { (d : T) → result ≡ get_or xs.entry.now (2 * (k % 16) + k / 16) d }
        { xs[2 * (k % 16) + k / 16] },
    )
}

// Rows 2 j and 2 j + 1 of matrix 32, where Y lane j is enabled; x is split, and not masked.
fn matrix32_pair(state: &mut [u8; 5120], j: usize, x: &Side, y: &Side, sum: Sum)
    requires { j < 32 }
    ensures { state.new ≡ cond (get_or y.now.on j false)
        (applied (run_sum 4 (j * 2) 2 (row_terms 4 32 (sum.shift % 32) (masked x.now.on x.now.lanes) (replicate 32 (get_or y.now.lanes j (pos 0))))
        x.now.on sum.keep) state.old)
        state.old }
{
    if !y.on[j] {
        return;
    }
    let same = [y.lanes[j]; 32];
    pair32(state, j, x, &same, sum);
}

// No twin of matrix16: the two rows of a pair are one loop here, over lanes that are split and masked there.
fn matrix32(state: &mut [u8; 5120], x: &Side, y: &Side, sum: Sum)
    ensures { state.new ≡
        applied (products Mac16.matrix32 0 (masked x.now.on x.now.lanes)
        x.now.on y.now.lanes y.now.on (sum.shift % 32) sum.keep) state.old }
{
    let halves = Side {
        lanes: split(&x.lanes),
        on: split(&x.on),
    };
    for j in 0..32 {
        matrix32_pair(state, j, &halves, y, sum);
    }
}

// ---- the step, on a state of 5,120 bytes: the count of bytes in enabled lanes

// A matrix has a lane, of so many bytes, for each enabled X lane with each enabled Y lane.
fn matrix_bytes(x: u64, y: u64, width: u64) -> u64
    requires { width ≤ 4 }
    ensures { result ≡ count (bit x) 32 * count (bit y) 32 * width }
{
    masks::count_first(x, 32) * masks::count_first(y, 32) * width
}

fn vector_step(state: &mut [u8; 5120], op: u64) -> u64
    ensures { (state.new ≡ applied (products_of Mac16.vector op state.old) state.old)
        × (result ≡ bytes_on (Mac16.effect Mac16.vector op)) }
{
    let x = x_mask(op);
    let on = masks::lanes(x);
    let xs = Side {
        lanes: x_factors(state, op, &on),
        on,
    };
    let ys = y_factors(state, op);
    row16(state, z_row(op), &xs, &ys, sum_of(op));
    masks::count_first(x, 32) * 2
}

fn matrix16_step(state: &mut [u8; 5120], op: u64) -> u64
    ensures { (state.new ≡ applied (products_of Mac16.matrix16 op state.old) state.old)
        × (result ≡ bytes_on (Mac16.effect Mac16.matrix16 op)) }
{
    let x = x_mask(op);
    let on = masks::lanes(x);
    let xs = Side {
        lanes: x_factors(state, op, &on),
        on,
    };
    let y = y_mask(op);
    let ys = Side {
        lanes: y_factors(state, op),
        on: masks::lanes(y),
    };
    matrix16(state, z_row(op) % 2, &xs, &ys, sum_of(op));
    matrix_bytes(x, y, 2)
}

fn matrix32_step(state: &mut [u8; 5120], op: u64) -> u64
    ensures { (state.new ≡ applied (products_of Mac16.matrix32 op state.old) state.old)
        × (result ≡ bytes_on (Mac16.effect Mac16.matrix32 op)) }
{
    let x = x_mask(op);
    let xs = Side {
        lanes: x_side(state, op),
        on: masks::lanes(x),
    };
    let y = y_mask(op);
    let ys = Side {
        lanes: y_factors(state, op),
        on: masks::lanes(y),
    };
    matrix32(state, &xs, &ys, sum_of(op));
    matrix_bytes(x, y, 4)
}

// mac16 on a state of 5,120 bytes, and the count of bytes in enabled lanes; a state of another length stays as it is.
pub fn step(state: &mut [u8], op: u64) -> u64
    ensures { (state.new ≡ cond (eqb (length state.old) register_bytes)
        (applied (Mac16.mac16 op) state.old) state.old)
        × (result ≡ cond (eqb (length state.old) register_bytes) (bytes_on (Mac16.mac16 op)) 0) }
{
    let Some(registers) = state.as_mut_array() else {
        return 0;
    };
    if operand::flag(op, 63) {
        return vector_step(registers, op);
    }
    if operand::flag(op, 62) {
        return matrix32_step(registers, op);
    }
    matrix16_step(registers, op)
}
