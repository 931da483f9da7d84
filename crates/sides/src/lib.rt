// The lanes of X or Y as integers, and the terms that vecint's ALU makes of them. Every function takes every argument.
#![tactic(auto)]

ghost use Rattle.std.specs.Prelude.{◌≡◌, true, false, cond, ◌+◌, ◌*◌, ◌/◌, ◌%◌, ◌<◌, ◌≤◌, ◌^◌, pos, ◌+ℤ◌, ◌*ℤ◌, get_or};
ghost use Rattle.std.specs.Int.Signed.{mag};
ghost use Rattle.number.specs.Bytes.{table};
ghost use Rattle.number.specs.Integers.{signed, read, kept, ◌≫◌};
ghost use Rattle.sides.specs.Sides.{lane_of, lane_bytes, side_of, side_by, term_of, kept_terms, pair_of, values_of, signed_by, Holds, HoldsLanes, HoldsEach};

use number::{Integer, Lane};

// How 64 bytes make a side: lanes of two bytes or of one, signed or not; one lane for all, or each lane of two bytes twice, where the other side
// is narrower.
#[derive(Clone, Copy)]
pub struct SideForm {
    pub wide: bool,
    pub sign: bool,
    pub fixed: Option<usize>,
    pub halved: bool,
}

// Whether what rounds is added to a term, and how far the term is shifted right.
#[derive(Clone, Copy)]
pub struct Shift {
    pub rounds: bool,
    pub by: u32,
}

// ---- a side in 64 numbers of 16 bits, which the compiler does eight at a time

// A byte in 16 bits.
fn extended(sign: bool, n: u8) -> u16
    ensures { signed 2 result ≡ read sign 1 n }
{
    if sign {
        return i16::from(n.cast_signed()).cast_unsigned();
    }
    u16::from(n)
}

// The 64 lanes of a byte.
fn bytes16(bytes: &[u8; 64], sign: bool) -> [u16; 64]
    ensures { HoldsLanes 64 true result (table (lane_of sign 1 bytes.now) 0 64) }
{
    std::array::from_fn(|i| extended(sign, bytes[i]))
}

// The 32 lanes of two bytes; the rest of the 64 lie past the bytes. By value, since an array that is lent tells no length.
// A loop: tried as from_fn with 0 past the bytes, and that is slower.
fn pairs(bytes: [u8; 64]) -> [u16; 64]
    ensures { result ≡ table (pair_of bytes) 0 64 }
{
    let mut out = [0u16; 64];
    for i in 0..32 {
        out[i] = u16::load(&bytes, 2 * i);
    }
    out
}

// The same lanes alone, and each of them twice: in two steps, so that the compiler does several lanes at a time.
fn half_pairs(bytes: &[u8; 64]) -> [u16; 32]
    ensures { result ≡ table (pair_of bytes.now) 0 32 }
{
    std::array::from_fn(|i| u16::load(bytes, 2 * i))
}

// As many as are used: the compiler spells out a loop of a fixed length, and then does the lanes one by one.
fn twice(xs: &[u16; 32], n: usize) -> [u16; 64]
    ensures { Holds n result (λ k. get_or xs.now (k / 2) 0) }
{
    let mut out = [0u16; 64];
    let m = (n.min(64) + 1) / 2;
    for i in 0..m {
        let v = xs[i];
        out[2 * i] = v;
        out[2 * i + 1] = v;
    }
    out
}

// As many as are used, too: tried as [v; 64], and that is slower.
fn filled(v: u16, n: usize) -> [u16; 64]
    ensures { Holds n result (λ k. v) }
{
    let mut out = [0u16; 64];
    let m = n.min(64);
    for i in 0..m {
        out[i] = v;
    }
    out
}

// One lane, by its number modulo the count of lanes.
fn one_byte(bytes: &[u8; 64], sign: bool, lane: usize) -> u16
    ensures { signed 2 result ≡ lane_of sign 1 bytes.now (lane % 64) }
{
    extended(sign, bytes[lane % 64])
}

fn one_pair(bytes: &[u8; 64], lane: usize) -> u16
    ensures { result ≡ pair_of bytes.now (lane % 32) }
{
    u16::load(bytes, 2 * (lane % 32))
}

fn one_lane(bytes: &[u8; 64], wide: bool, sign: bool, lane: usize) -> u16
    ensures { read (cond wide sign true) 2 result ≡ lane_of sign (lane_bytes wide) bytes.now (lane % (64 / lane_bytes wide)) }
{
    if wide {
        return one_pair(bytes, lane);
    }
    one_byte(bytes, sign, lane)
}

// The first n lanes that a side gives: one for all, each twice where the other side is narrower, or each once.
fn side16(bytes: &[u8; 64], how: SideForm, n: usize) -> [u16; 64]
    ensures { HoldsLanes n (signed_by how) result (side_by how bytes.now) }
{
    if let Some(lane) = how.fixed {
        return filled(one_lane(bytes, how.wide, how.sign, lane), n);
    }
    if !how.wide {
        return bytes16(bytes, how.sign);
    }
    if how.halved {
        let xs = half_pairs(bytes);
        return twice(&xs, n);
    }
    pairs(*bytes)
}

fn signed_by(how: SideForm) -> bool
    ensures { result ≡ signed_by how }
{
    if how.wide { how.sign } else { true }
}

// ---- what 32 bits keep of the terms: with what rounding adds, a sum and a product fit an i32, and a product of two unsigned numbers a u32

fn rounding32(rounds: bool) -> i32
    ensures { (result ≡ cond rounds (pos 16384) (pos 0)) × (mag result ≤ 16384) }
{
    if rounds { 16_384i32 } else { 0 }
}

// Held in an i64 and shifted there; the compiler sees that 32 bits would do.
fn shifted32(v: i32, s: u32) -> i32
    ensures { result ≡ v ≫ (s % 32) }
{
    number::shifted(v as i64, s) as i32
}

// No more than 32768 times 65535.
fn moved(shift: Shift, v: i32) -> i32
    requires { mag v ≤ 2147450880 }
    ensures { result ≡ (v +ℤ cond shift.rounds (pos 16384) (pos 0)) ≫ (shift.by % 32) }
{
    shifted32(v + rounding32(shift.rounds), shift.by)
}

fn signed_product(x: i16, y: i16) -> i32
    ensures { (result ≡ x *ℤ y) × (mag result ≤ 2147450880) }
{
    x as i32 * y as i32
}

fn mixed_product(x: i16, y: u16) -> i32
    ensures { (result ≡ x *ℤ pos y) × (mag result ≤ 2147450880) }
{
    x as i32 * y as i32
}

fn lane32(sign: bool, n: u16) -> i32
    ensures { (result ≡ read sign 2 n) × (mag result < 65536) }
{
    n.read(sign) as i32
}

fn lane_sum(x: i32, y: i32) -> i32
    requires { (mag x < 65536) × (mag y < 65536) }
    ensures { (result ≡ x +ℤ y) × (mag result ≤ 2147450880) }
{
    x + y
}

fn sum_term(shift: Shift, xsigned: bool, x: u16, ysigned: bool, y: u16) -> i32
    ensures { result ≡ kept 4 (term_of true shift.rounds (shift.by % 32) (read xsigned 2 x) (read ysigned 2 y)) }
{
    moved(shift, lane_sum(lane32(xsigned, x), lane32(ysigned, y)))
}

fn signed_term(shift: Shift, x: u16, y: u16) -> i32
    ensures { result ≡ kept 4 (term_of false shift.rounds (shift.by % 32) (signed 2 x) (signed 2 y)) }
{
    moved(shift, signed_product(x.cast_signed(), y.cast_signed()))
}

fn mixed_term(shift: Shift, x: u16, y: u16) -> i32
    ensures { result ≡ kept 4 (term_of false shift.rounds (shift.by % 32) (signed 2 x) (pos y)) }
{
    moved(shift, mixed_product(x.cast_signed(), y))
}

fn unsigned_rounding(rounds: bool) -> u32
    ensures { (result ≡ cond rounds 16384 0) × (result ≤ 16384) }
{
    if rounds { 16_384u32 } else { 0 }
}

fn unsigned_product(x: u16, y: u16) -> u32
    ensures { (result ≡ x * y) × (result ≤ 4294836225) }
{
    x as u32 * y as u32
}

fn unsigned_moved(shift: Shift, v: u32) -> u32
    requires { v ≤ 4294836225 }
    ensures { result ≡ (v + cond shift.rounds 16384 0) / 2 ^ (shift.by % 32) }
{
    number::shifted((v + unsigned_rounding(shift.rounds)) as i64, shift.by) as u32
}

fn unsigned_term(shift: Shift, x: u16, y: u16) -> i32
    ensures { result ≡ kept 4 (term_of false shift.rounds (shift.by % 32) (pos x) (pos y)) }
{
    unsigned_moved(shift, unsigned_product(x, y)).cast_signed()
}

// ---- a loop for each kind of term, whose body the compiler does several lanes at a time

// The terms of the first n of 64 numbers; the others are 0.
fn terms<F: Fn(u16, u16) -> i32>(n: usize, xs: &[u16; 64], ys: &[u16; 64], term: F) -> [i32; 64]
    requires { F.IsAlwaysCallable term }
    ensures { HoldsEach n (F.post term) xs.now ys.now result }
{
    let mut out = [0i32; 64];
    let m = n.min(64);
    for i in 0..m {
        out[i] = term(xs[i], ys[i]);
    }
    out
}

// The numbers of a side and how they are read, apart: each loop takes a struct of both apart again.
fn products(
    n: usize,
    shift: Shift,
    xs: &[u16; 64],
    xsigned: bool,
    ys: &[u16; 64],
    ysigned: bool,
) -> [i32; 64]
    ensures { result ≡ kept_terms n false shift.rounds (shift.by % 32) (values_of xsigned xs.now) (values_of ysigned ys.now) }
{
    match (xsigned, ysigned) {
        (true, true) => terms(n, xs, ys, move |x, y| signed_term(shift, x, y)),
        (true, false) => terms(n, xs, ys, move |x, y| mixed_term(shift, x, y)),
        (false, true) => terms(n, ys, xs, move |y, x| mixed_term(shift, y, x)),
        (false, false) => terms(n, xs, ys, move |x, y| unsigned_term(shift, x, y)),
    }
}

// What 32 bits keep of the terms of the first n lanes of two sides, shifted by a number modulo 32; the others are 0.
pub fn kept_terms(
    xbytes: &[u8; 64],
    x: SideForm,
    ybytes: &[u8; 64],
    y: SideForm,
    n: usize,
    plus: bool,
    shift: Shift,
) -> [i32; 64]
    ensures { result ≡ kept_terms n plus shift.rounds (shift.by % 32) (side_by x xbytes.now) (side_by y ybytes.now) }
{
    let xs = side16(xbytes, x, n);
    let ys = side16(ybytes, y, n);
    let xsigned = signed_by(x);
    let ysigned = signed_by(y);
    if plus {
        return terms(
            n,
            &xs,
            &ys,
            move |x, y| sum_term(shift, xsigned, x, ysigned, y),
        );
    }
    products(n, shift, &xs, xsigned, &ys, ysigned)
}
