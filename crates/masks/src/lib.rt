// Masks: the lanes that an enable mode enables, as one number whose bit k tells of lane k. A mask has 64 places, as many as any form has lanes;
// those past a form's lanes have what the rule says there, and neither a row nor a count takes them in. Every open function takes every argument;
// that N is at most 64 is of the type.
#![tactic(auto)]

ghost use Rattle.std.specs.Prelude.{◌≡◌, cond, ◌||◌, ◌%◌, ◌<◌, ◌≤◌, ltb, eqb};
ghost use Rattle.number.specs.Bytes.{table};
ghost use Rattle.isa.specs.Operand.{bit};
ghost use Rattle.isa.specs.Effect.{count};
ghost use Rattle.isa.specs.Enable as Enable;
ghost use Rattle.isa.specs.Enable.{by_parity, first_or_all, last_or_all, mac16_enables, vecint_enables};
ghost use Rattle.isa.specs.Vecint as Vecint;
ghost use Rattle.isa.specs.Vecfp as Vecfp;
ghost use Rattle.operand.specs.Lanes.{lanes_by};
ghost use Rattle.masks.specs.Mask.{mask_of, lane_used, places_of, mask_at, enables_all};

// Every place.
pub const ALL: u64 = 0xffff_ffff_ffff_ffff;

// ---- what all instructions have

// All lanes or none.
fn all_if(on: bool) -> u64
    ensures { result ≡ mask_of (λ k. on) 64 }
{
    if on { ALL } else { 0 }
}

// The first n lanes.
fn first(n: u64) -> u64
    ensures { result ≡ mask_of (Enable.first n) 64 }
{
    if 64 <= n {
        return ALL;
    }
    (1u64 << n) - 1
}

// The last n of so many lanes, and the places past them.
fn last(lanes: u64, n: u64) -> u64
    ensures { result ≡ mask_of (Enable.last lanes n) 64 }
{
    if lanes <= n {
        return ALL;
    }
    !first(lanes - n)
}

// The same where no lane, n of 0, stands for all lanes.
fn first_or_all(n: u64) -> u64
    ensures { result ≡ mask_of (first_or_all n) 64 }
{
    if n == 0 { ALL } else { first(n) }
}

fn last_or_all(lanes: u64, n: u64) -> u64
    ensures { result ≡ mask_of (last_or_all lanes n) 64 }
{
    if n == 0 { ALL } else { last(lanes, n) }
}

// Of the wider of two sides, each lane has two places.
fn odd(halved: bool) -> u64
    ensures { result ≡ mask_of (λ k. eqb (lane_used halved k % 2) 1) 64 }
{
    if halved {
        0xcccc_cccc_cccc_cccc
    } else {
        0xaaaa_aaaa_aaaa_aaaa
    }
}

// All, odd or even lanes by the value, or what is said for other values.
fn by_parity(n: u64, other: bool, halved: bool) -> u64
    ensures { result ≡ mask_of (λ k. by_parity n other (lane_used halved k)) 64 }
{
    match n {
        0 => ALL,
        1 => odd(halved),
        2 => !odd(halved),
        _ => all_if(other),
    }
}

// ---- mac16 and fms64

// Lane n alone.
fn only(n: u64) -> u64
    ensures { result ≡ mask_of (λ k. eqb k n) 64 }
{
    if 64 <= n {
        return 0;
    }
    1u64 << n
}

// The lanes of X, or of Y, that a mode and its value enable, of so many lanes: 32, and 8 of fms64.
pub fn mac16_mask(lanes: u64, mode: u64, n: u64) -> u64
    ensures { result ≡ mask_of (mac16_enables lanes mode n) 64 }
{
    match mode {
        0 => by_parity(n, false, false),
        1 => only(n),
        2 => first_or_all(n),
        _ => last_or_all(lanes, n),
    }
}

// ---- vecint

// The places that n lanes take.
fn places(n: u8, halved: bool) -> u64
    ensures { result ≡ places_of halved n }
{
    if halved {
        2 * u64::from(n)
    } else {
        u64::from(n)
    }
}

// The lanes that a mode and its value enable, of so many lanes.
fn vecint_enables(lanes: u8, mode: u64, n: u8, halved: bool) -> u64
    ensures { result ≡ mask_of (λ k. vecint_enables lanes mode n (lane_used halved k)) 64 }
{
    match mode {
        0 => by_parity(u64::from(n), n <= 5, halved),
        1 => ALL,
        2 => first_or_all(places(n, halved)),
        3 => last_or_all(places(lanes, halved), places(n, halved)),
        4 => first(places(n, halved)),
        5 => last(places(lanes, halved), places(n, halved)),
        _ => 0,
    }
}

// The mask read at lanes of b bytes.
fn mask_at(op: u64, b: usize, halved: bool) -> u64
    ensures { result ≡ mask_of (λ k. mask_at op (lanes_by b) (lane_used halved k)) 64 }
{
    let mode = operand::field(op, 38, 40);
    let n = operand::field(op, 32, 37) as u8;
    let lanes = operand::lanes_of(b) as u8;
    vecint_enables(lanes, mode, n, halved)
}

// The lanes that the mask allows at X's width and at Y's, which is one mask where the widths are equal.
fn sides_mask(op: u64) -> u64
    ensures { result ≡ mask_of (Vecint.both_allow (Vecint.widths op) (Vecint.enable_mode op) (Vecint.enable_value op)) 64 }
{
    let x = operand::x_width(op);
    let y = operand::y_width(op);
    let by_x = mask_at(op, x, y < x);
    if x == y {
        return by_x;
    }
    by_x & mask_at(op, y, x < y)
}

// Whether a mode and its value enable every lane, whatever the widths are.
fn enables_all(mode: u64, n: u64) -> bool
    ensures { result ≡ enables_all mode n }
{
    match (mode, n) {
        (_, 0) => mode <= 3,
        (0, _) => 3 <= n && n <= 5,
        _ => mode == 1,
    }
}

// The enabled lanes of a vector: all of them where there are several vectors.
pub fn vecint_mask(generation: u64, op: u64) -> u64
    ensures { result ≡ mask_of (λ k. Vecint.several generation op || Vecint.masked op k) 64 }
{
    if operand::several(generation, op) {
        return ALL;
    }
    if enables_all(operand::field(op, 38, 40), operand::field(op, 32, 37)) {
        return ALL;
    }
    if operand::reduces(op) {
        return mask_at(op, operand::z_width(op), false);
    }
    sides_mask(op)
}

// ---- vecfp

// The same by vecfp's value, at the one width of its lanes.
pub fn vecfp_mask(generation: u64, op: u64) -> u64
    ensures { result ≡ mask_of (Vecfp.enabled generation op) 64 }
{
    if operand::several(generation, op) {
        return ALL;
    }
    let enable = operand::field(op, 38, 40);
    let n = operand::vecfp_value(op);
    if enables_all(enable, n) {
        return ALL;
    }
    vecint_enables(operand::vecfp_lanes(op) as u8, enable, n as u8, false)
}

// ---- what is read of a mask

// How many of the first n lanes are enabled. All lanes need no count.
pub fn count_first(mask: u64, n: usize) -> u64
    ensures { (result ≡ count (bit mask) (cond (ltb n 64) n 64)) × (result ≤ 64) }
{
    let lanes = n.min(64) as u64;
    if mask == ALL {
        return lanes;
    }
    u64::from((mask & first(lanes)).count_ones())
}

// Lane k of 64. Of the forms tried, the compiler does this one in the fewest instructions, 16 lanes at a time.
fn is_on(mask: u64, k: usize) -> bool
    requires { k < 64 }
    ensures { result ≡ bit mask k }
{
    let word = ((mask >> (k / 16 * 16)) % 65_536) as u16;
    let lane = 1u16 << (k % 16);
    word | lane == word
}

// A bool for each of the first N lanes, as rows take them; no bit is read where all lanes are enabled.
pub fn lanes<const N: usize>(mask: u64) -> [bool; N]
    requires { N ≤ 64 }
    ensures { result ≡ table (bit mask) 0 N }
{
    if mask == ALL {
        return [true; N];
    }
    std::array::from_fn(
        |k| -> bool
            requires { k < 64 }
            ensures { result ≡ bit mask k }
        { is_on(mask, k) },
    )
}
