// vecint on a lent state.
#![tactic(auto)]

ghost use Rattle.std.specs.Prelude.{◌≡◌, refl, Bool, ◌+◌, ◌*◌, ◌/◌, ◌<◌, ◌≤◌, true, false, cond, ◌||◌, length, neg_ℤ};
ghost use Rattle.std.specs.Prelude.{if◌then◌else◌, ◌==◌, nat_eq, slice_index_or};
ghost use Rattle.number.specs.Bytes.{span};
ghost use Rattle.number.specs.Integers.{signed, wrap, kept};
ghost use Rattle.isa.specs.State.{register_bytes};
ghost use Rattle.isa.specs.Operand.{bit};
ghost use Rattle.isa.specs.Effect.{applied, count, bytes_on};
ghost use Rattle.isa.specs.Vecint as Vecint;
ghost use Rattle.masks.specs.Mask.{mask_of};
ghost use Rattle.state.specs.Rows.{dealt};
ghost use Rattle.vecint.specs.Accumulation.{z_bytes, z_lanes, summed, clamped_sum, accumulated, lane_stored, accumulate, row_of};
ghost use Rattle.vecint.specs.Modes.{sums_in, y_alone, negates_in, alu_by};
ghost use Rattle.vecint.specs.Vectors.{vector_lanes, x_side_of, y_side_of, fixed_x, fixed_y, HoldsTerms, vecint_mask, vector_effect, reduce_by};

use number::{Integer, Lane};

// ---- lanes of all modes but 4

// What a mode does, lane by lane: a sum of x and y or a product, X or Y left out as 0, and what becomes of the term, which is negated, added to
// old Z and clamped, or not.
#[derive(Clone, Copy)]
pub struct Alu {
    pub sums: bool,
    pub skipx: bool,
    pub skipy: bool,
    pub negates: bool,
    pub keeps: bool,
    pub clamps: bool,
}

fn sum<T: Integer>(z: T, t: i32, how: Alu) -> T
    ensures { T.Lane.bits result ≡ wrap (span T.Lane.BYTES) (summed how (signed T.Lane.BYTES (T.Lane.bits z)) t) }
{
    let v = T::wrapped(i64::from(t));
    if !how.keeps {
        return v;
    }
    if how.negates {
        return z.minus(v);
    }
    z.plus(v)
}

fn signed_by(t: i64, negates: bool) -> i64
    ensures { result ≡ (if negates then kept 8 (neg_ℤ t) else t) }
{
    if negates { number::negated(t) } else { t }
}

fn clamp16(z: u16, t: i32, how: Alu) -> u16
    ensures { result ≡ wrap (span 2) (clamped_sum how (signed 2 z) t) }
{
    if how.keeps {
        let v = number::added(z.signed(), signed_by(i64::from(t), how.negates));
        return u16::wrapped(number::clamped(-32_768, 32_767, v));
    }
    u16::wrapped(number::clamped(-32_768, 32_767, i64::from(t)))
}

// The lanes of Z, of two bytes or four; those of two bytes may be clamped.
trait Accumulated: Integer {
    ghost wide: { Bool };

    fn accumulated(self, t: i32, how: Alu) -> Self
        ensures { Self.Lane.bits result ≡
            wrap (span Self.Lane.BYTES) (accumulated wide how (signed Self.Lane.BYTES (Self.Lane.bits self)) t) };

    ghost width: { z_bytes wide ≡ Self.Lane.BYTES };
}

impl Accumulated for u16 {
    ghost wide = { false };

    fn accumulated(self, t: i32, how: Alu) -> u16 {
        if how.clamps {
            return clamp16(self, t, how);
        }
        sum(self, t, how)
    }

    ghost width = { refl };
}

impl Accumulated for u32 {
    ghost wide = { true };

    fn accumulated(self, t: i32, how: Alu) -> u32 {
        sum(self, t, how)
    }

    ghost width = { refl };
}

// The old number where the lane is off.
fn lane<T: Accumulated>(state: &mut [u8], at: usize, t: i32, on: bool, how: Alu)
    requires { at + T.Lane.BYTES ≤ length state.old }
    ensures { state.new ≡ lane_stored T.wide how state.old at t on }
{
    let z = T::load(state, at);
    number::chosen(on, z.accumulated(t, how), z).store(state, at);
}

// A row: its lane l takes term l c + q.
fn row_in<T: Accumulated, const N: usize>(
    state: &mut [u8],
    row: usize,
    q: usize,
    c: usize,
    terms: &[i32; 64],
    on: &[bool; 64],
    how: Alu,
)
    requires { (length state.old ≡ register_bytes) × (row < 64) × (q < c) × (N * c ≤ 64) × (N * T.Lane.BYTES ≡ 64) }
    ensures { state.new ≡ applied (row_of T.wide row q c terms.now on.now how) state.old }
{
    // modulo 64, by which the compiler sees that each lane lies in the state
    let start = 1024 + row % 64 * 64;
    // by the index, which gives each lane its place
    for l in 0..N {
        let k = l * c + q;
        lane::<T>(state, start + l * T::BYTES, terms[k], on[k], how);
    }
}

fn alu_row(
    state: &mut [u8],
    row: usize,
    q: usize,
    c: usize,
    wide: bool,
    terms: &[i32; 64],
    on: &[bool; 64],
    how: Alu,
)
    requires { (length state.old ≡ register_bytes) × (row < 64) × (q < c) × (z_lanes wide * c ≤ 64) }
    ensures { state.new ≡ applied (row_of wide row q c terms.now on.now how) state.old }
{
    if wide {
        row_in::<u32, 16>(state, row, q, c, terms, on, how);
        return;
    }
    row_in::<u16, 32>(state, row, q, c, terms, on, how);
}

// The c rows that the lanes of a vector are dealt to, from a row on.
fn alu_rows(
    state: &mut [u8],
    base: usize,
    c: usize,
    wide: bool,
    terms: &[i32; 64],
    on: &[bool; 64],
    how: Alu,
)
    requires { (length state.old ≡ register_bytes) × (base + c ≤ 64) × (z_lanes wide * c ≤ 64) }
    ensures { state.new ≡ applied (dealt (z_bytes wide) base c (λ k. slice_index_or on.now k false)
        (accumulate wide how terms.now)) state.old }
{
    for q in 0..c {
        alu_row(state, base + q, q, c, wide, terms, on, how);
    }
}

// ---- modes

#[tactic(auto, unfolding(crate::specs::Modes::sums_in))]
fn sums_in(mode: u64) -> bool
    ensures { result ≡ sums_in mode }
{
    !matches!(mode, 0 | 1 | 5 | 6 | 10)
}

#[tactic(auto, unfolding(crate::specs::Modes::y_alone))]
fn y_alone(mode: u64) -> bool
    ensures { result ≡ y_alone mode }
{
    match mode {
        2 | 3 | 11 => false,
        _ => sums_in(mode),
    }
}

#[tactic(auto, unfolding(crate::specs::Modes::negates_in))]
fn negates_in(mode: u64) -> bool
    ensures { result ≡ negates_in mode }
{
    matches!(mode, 1 | 3 | 6)
}

// What an operand's mode does, and nothing but 0 where its output is forced to 0.
fn alu_by(generation: u64, op: u64) -> Alu
    ensures { result ≡ alu_by generation op }
{
    if operand::overrides(generation, op, 3, 1) {
        return Alu {
            sums: false,
            skipx: true,
            skipy: true,
            negates: false,
            keeps: false,
            clamps: false,
        };
    }
    let mode = operand::alu_mode(op);
    Alu {
        sums: sums_in(mode),
        skipx: y_alone(mode),
        skipy: mode == 11,
        negates: negates_in(mode),
        keeps: mode != 10,
        clamps: operand::saturates(op),
    }
}

// ---- the sides of a vector

// A lane of X for every lane: by broadcast mode 6 its lane 0.
fn fixed_x(generation: u64, op: u64) -> Option<usize>
    ensures { result ≡ fixed_x generation op }
{
    if operand::broadcasts(generation, op, 6, 6) {
        Some(0)
    } else {
        None
    }
}

// How the lanes of X are read.
fn x_side(generation: u64, op: u64) -> sides::SideForm
    ensures { result ≡ x_side_of generation op }
{
    sides::SideForm {
        wide: operand::x_width(op) == 2,
        sign: operand::flag(op, 63),
        fixed: fixed_x(generation, op),
        halved: operand::y_width(op) == 1,
    }
}

// A lane of Y for every lane: by broadcast mode 7 its lane 0, by enable mode 1 the lane that the value names.
fn fixed_y(generation: u64, op: u64) -> Option<usize>
    ensures { result ≡ fixed_y generation op }
{
    if operand::several(generation, op) {
        return if operand::field(op, 32, 34) == 7 {
            Some(0)
        } else {
            None
        };
    }
    if operand::field(op, 38, 40) == 1 {
        return Some(operand::field(op, 32, 37) as usize);
    }
    None
}

fn y_side(generation: u64, op: u64) -> sides::SideForm
    ensures { result ≡ y_side_of generation op }
{
    sides::SideForm {
        wide: operand::y_width(op) == 2,
        sign: operand::flag(op, 26),
        fixed: fixed_y(generation, op),
        halved: operand::x_width(op) == 1,
    }
}

// ---- vectors

fn vector_terms(state: &[u8], generation: u64, op: u64, v: usize, how: Alu) -> [i32; 64]
    requires { (v < 4) × (Vecint.reduces op ≡ false) }
    ensures { HoldsTerms generation op state.now v how result }
{
    let xs = loads::x_bytes(state, generation, op, v, how.skipx);
    let ys = loads::y_bytes(state, generation, op, v, how.skipy);
    sides::kept_terms(
        &xs,
        x_side(generation, op),
        &ys,
        y_side(generation, op),
        operand::vector_lanes(op),
        how.sums,
        sides::Shift {
            rounds: how.clamps,
            by: operand::vecint_shift(op),
        },
    )
}

// Vector v of a step in any mode but 4.
fn alu_vector(state: &mut [u8], generation: u64, op: u64, v: usize, on: &[bool; 64])
    requires { (length state.old ≡ register_bytes) × (v < 64 / Vecint.stride generation op)
        × (Vecint.reduces op ≡ false) × (on.now ≡ vecint_mask generation op) }
    ensures { state.new ≡ applied (vector_effect generation op v state.old) state.old }
{
    let how = alu_by(generation, op);
    let terms = vector_terms(state, generation, op, v, how);
    let wide = operand::z_width(op) == 4;
    alu_rows(
        state,
        operand::first_row(generation, op, v),
        operand::rows_each(op),
        wide,
        &terms,
        on,
        how,
    );
}

// What mode 4 does by an operand.
fn reduce_by(generation: u64, op: u64) -> reduction::Reduce
    ensures { result ≡ reduce_by generation op }
{
    let range = reduction::Range {
        below: operand::flag(op, 26),
        width: operand::saturation_width(op),
    };
    reduction::Reduce {
        clears: operand::overrides(generation, op, 3, 1),
        sign: operand::flag(op, 63),
        rounds: operand::flag(op, 29),
        shift: operand::vecint_shift(op),
        clamp: if operand::flag(op, 30) {
            Some(range)
        } else {
            None
        },
    }
}

// Vector v of a step in mode 4: a row of Z.
fn reduce_vector(state: &mut [u8], generation: u64, op: u64, v: usize, on: &[bool; 64])
    requires { (length state.old ≡ register_bytes) × (v < 64 / Vecint.stride generation op)
        × (Vecint.reduces op ≡ true) × (on.now ≡ vecint_mask generation op) }
    ensures { state.new ≡ applied (vector_effect generation op v state.old) state.old }
{
    let how = reduce_by(generation, op);
    reduction::reduce_row(
        state,
        operand::first_row(generation, op, v),
        operand::z_width(op),
        on,
        how,
    );
}

fn vector(state: &mut [u8], generation: u64, op: u64, v: usize, on: &[bool; 64])
    requires { (length state.old ≡ register_bytes) × (v < 64 / Vecint.stride generation op) × (on.now ≡ vecint_mask generation op) }
    ensures { state.new ≡ applied (vector_effect generation op v state.old) state.old }
{
    if operand::reduces(op) {
        reduce_vector(state, generation, op, v, on);
        return;
    }
    alu_vector(state, generation, op, v, on);
}

fn each_vector(state: &mut [u8], generation: u64, op: u64, on: &[bool; 64])
    requires { (length state.old ≡ register_bytes) × (on.now ≡ vecint_mask generation op) }
    ensures { state.new ≡ applied (Vecint.vecint generation op) state.old }
{
    let vectors = operand::vectors(generation, op);
    for v in 0..vectors {
        vector(state, generation, op, v, on);
    }
}

// The bytes of a vector's enabled lanes. Where all are enabled they are whole rows, and need no count.
fn vector_bytes(op: u64, mask: u64) -> u64
    ensures { (result ≡ count (bit mask) (vector_lanes op) * Vecint.z_width op) × (result ≤ 256) }
{
    if mask == masks::ALL {
        return 64 * operand::rows_each(op) as u64;
    }
    masks::count_first(mask, operand::vector_lanes(op)) * operand::z_width(op) as u64
}

// Each vector enables the same lanes.
fn bytes_enabled(generation: u64, op: u64, mask: u64) -> u64
    requires { mask ≡ mask_of (λ k. Vecint.several generation op || Vecint.masked op k) 64 }
    ensures { result ≡ bytes_on (Vecint.vecint generation op) }
{
    operand::vectors(generation, op) as u64 * vector_bytes(op, mask)
}

// vecint on a state of 5,120 bytes, and the count of bytes in enabled lanes; a state of another length stays as it is.
pub fn step(state: &mut [u8], generation: u64, op: u64) -> u64
    ensures { (state.new ≡ cond (length state.old == register_bytes)
        (applied (Vecint.vecint generation op) state.old) state.old)
        × (result ≡ (if nat_eq (length state.old) register_bytes then bytes_on (Vecint.vecint generation op) else 0)) }
{
    if state.len() != 5120 {
        return 0;
    }
    let mask = masks::vecint_mask(generation, op);
    let on = masks::lanes::<64>(mask);
    each_vector(state, generation, op, &on);
    bytes_enabled(generation, op, mask)
}
