// ALU mode 4 of vecint, which works on Z alone: one row.
#![tactic(auto)]

ghost use Rattle.std.specs.Prelude.{◌≡◌, false, cond, ◌+◌, ◌*◌, ◌%◌, ◌^◌, ◌<◌, ◌≤◌, ℤ, pos, eqb, length, get_or, if◌then◌else◌};
ghost use Rattle.std.specs.Int.Signed.{mag};
ghost use Rattle.number.specs.Bytes.{span};
ghost use Rattle.number.specs.Integers.{wrap, ◌≫◌, clamp, clamp_signed};
ghost use Rattle.isa.specs.State.{register_bytes};
ghost use Rattle.isa.specs.Effect.{applied};
ghost use Rattle.state.specs.Rows.{one_row};
ghost use Rattle.reduction.specs.Reduction.{width_in, value_of, new_of, reduce_to, added_to, shifted_by, low_end, high_end, lane_stored, row_reduced};

use number::{Integer, Lane};

// A range that is clamped to: it reaches below 0 or not, and has a width in bytes.
#[derive(Clone, Copy)]
pub struct Range {
    pub below: bool,
    pub width: usize,
}

// What mode 4 does to a lane: Z is read as signed or not; what is shifted is rounded or not, and clamped or not.
// Where the output is forced to 0, nothing else matters.
#[derive(Clone, Copy)]
pub struct Reduce {
    pub clears: bool,
    pub sign: bool,
    pub rounds: bool,
    pub shift: u32,
    pub clamp: Option<Range>,
}

// ---- the value of a lane

fn rounding(how: Reduce) -> i64
    ensures { (result ≡ added_to how) × (mag result ≤ 2 ^ 30) }
{
    if how.rounds {
        number::half_unit(how.shift)
    } else {
        0
    }
}

fn moved(old: i64, how: Reduce) -> i64
    requires { mag old < 2 ^ 40 }
    ensures { result ≡ shifted_by how old }
{
    number::shifted(old + rounding(how), how.shift)
}

// The ends of the range that is clamped to.
fn low(to: Range) -> i64
    ensures { result ≡ low_end to.below to.width }
{
    match (to.below, to.width) {
        (false, _) => 0,
        (true, 1) => -128,
        (true, 2) => -32_768,
        _ => -2_147_483_648,
    }
}

fn high(to: Range) -> i64
    ensures { result ≡ high_end to.below to.width }
{
    match (to.below, to.width) {
        (true, 1) => 127,
        (true, 2) => 32_767,
        (true, _) => 2_147_483_647,
        (false, 1) => 255,
        (false, 2) => 65_535,
        _ => 4_294_967_295,
    }
}

fn value(old: i64, how: Reduce) -> i64
    requires { mag old < 2 ^ 40 }
    ensures { result ≡ value_of how old }
{
    let v = moved(old, how);
    match how.clamp {
        None => v,
        Some(to) => number::clamped(low(to), high(to), v),
    }
}

// ---- the same in an i32, for lanes of up to 16 bits: with what rounding adds they fit it, and the compiler does several at a time

fn rounding32(how: Reduce) -> i32
    ensures { (result ≡ added_to how) × (mag result ≤ 2 ^ 30) }
{
    rounding(how) as i32
}

fn shifted32(v: i32, s: u32) -> i32
    ensures { (result ≡ v ≫ (s % 32)) × (mag result ≤ mag v) }
{
    v >> (s % 32)
}

fn moved32(old: i32, how: Reduce) -> i32
    requires { mag old < 2 ^ 16 }
    ensures { result ≡ shifted_by how old }
{
    shifted32(old + rounding32(how), how.shift)
}

fn low32(to: Range) -> i32
    ensures { result ≡ low_end to.below to.width }
{
    low(to) as i32
}

// No more than an i32 holds.
fn high32(to: Range) -> i32
    ensures { result ≡ clamp_signed 4 (high_end to.below to.width) }
{
    number::clamped(-2_147_483_648, 2_147_483_647, high(to)) as i32
}

fn clamped32(low: i32, high: i32, v: i32) -> i32
    ensures { result ≡ clamp low high v }
{
    if v < low {
        return low;
    }
    if high < v {
        return high;
    }
    v
}

fn value32(old: i32, how: Reduce) -> i32
    requires { mag old < 2 ^ 16 }
    ensures { result ≡ value_of how old }
{
    let v = moved32(old, how);
    match how.clamp {
        None => v,
        Some(to) => clamped32(low32(to), high32(to), v),
    }
}

// ---- lanes

// The number that a lane receives, whose value is made in an i32,
fn narrow<T: Integer>(old: i64, how: Reduce) -> T
    requires { mag old < 2 ^ 16 }
    ensures { T.Lane.bits result ≡ new_of T.Lane.BYTES how old }
{
    if how.clears {
        return T::wrapped(0);
    }
    T::wrapped(i64::from(value32(old as i32, how)))
}

// or in an i64.
fn wide<T: Integer>(old: i64, how: Reduce) -> T
    requires { mag old < 2 ^ 40 }
    ensures { T.Lane.bits result ≡ new_of T.Lane.BYTES how old }
{
    if how.clears {
        return T::wrapped(0);
    }
    T::wrapped(value(old, how))
}

// The lanes that mode 4 has.
trait Reduced: Integer {
    fn reduced(self, how: Reduce) -> Self
        ensures { Self.Lane.bits result ≡ reduce_to Self.Lane.BYTES how (Self.Lane.bits self) };
}

impl Reduced for u8 {
    fn reduced(self, how: Reduce) -> u8 {
        narrow(self.read(how.sign), how)
    }
}

impl Reduced for u16 {
    fn reduced(self, how: Reduce) -> u16 {
        narrow(self.read(how.sign), how)
    }
}

impl Reduced for u32 {
    fn reduced(self, how: Reduce) -> u32 {
        wide(self.read(how.sign), how)
    }
}

// The old number where the lane is off.
fn lane<T: Reduced>(state: &mut [u8], at: usize, on: bool, how: Reduce)
    requires { at + T.Lane.BYTES ≤ length state.old }
    ensures { state.new ≡ lane_stored T.Lane.BYTES how state.old at on }
{
    let z = T::load(state, at);
    number::chosen(on, z.reduced(how), z).store(state, at);
}

// ---- rows; with the width and the count of lanes known the compiler does better

fn row_of<T: Reduced, const N: usize>(state: &mut [u8], row: usize, on: &[bool; 64], how: Reduce)
    requires { (length state.old ≡ register_bytes) × (row < 64) × (N * T.Lane.BYTES ≡ 64) }
    ensures { state.new ≡ applied (row_reduced T.Lane.BYTES row on.now how) state.old }
{
    // by the index, which gives each lane its place
    for l in 0..N {
        lane::<T>(state, 1024 + (row * 64 + l * T::BYTES), on[l], how);
    }
}

// The lanes of b bytes of a row; those that are off stay. A state of another length than 5,120 bytes stays as it is.
pub fn reduce_row(state: &mut [u8], row: usize, b: usize, on: &[bool; 64], how: Reduce)
    ensures { state.new ≡ cond (eqb (length state.old) register_bytes)
        (applied (one_row (width_in b) row (λ l. get_or on.now l false) (λ l. reduce_to (width_in b) how)) state.old) state.old }
{
    if state.len() != 5120 {
        return;
    }
    if 64 <= row {
        return;
    }
    match b {
        1 => row_of::<u8, 64>(state, row, on, how),
        2 => row_of::<u16, 32>(state, row, on, how),
        _ => row_of::<u32, 16>(state, row, on, how),
    }
}
