// fms64 on a lent state.
#![tactic(auto)]

ghost use Rattle.std.specs.Prelude.{◌≡◌, true, false, cond, ◌+◌, ◌*◌, ◌<◌, eqb, length, get_or};
ghost use Rattle.std.specs.Float.{binary64};
ghost use Rattle.number.specs.Bytes.{number, table};
ghost use Rattle.float.specs.Floats.{negated};
ghost use Rattle.isa.specs.Operand.{bits};
ghost use Rattle.isa.specs.State.{register_bytes, x_base, y_base, loaded};
ghost use Rattle.isa.specs.Effect.{applied, bytes_on};
ghost use Rattle.isa.specs.Enable.{mac16_enables};
ghost use Rattle.isa.specs.Fms64 as Fms64;
ghost use Rattle.state.specs.Rows.{one_row};
ghost use Rattle.masks.specs.Mask.{mask_of};
ghost use Rattle.fms64.specs.Terms.{terms_of, row_terms, less_row, less_matrix, keeps_z};

use float::Pattern;
use lanes::Difference;

// ---- rows

fn negatives(ts: &[u64; 8]) -> [u64; 8]
    ensures { result ≡ table (λ l. negated binary64 (get_or ts.now l 0)) 0 8 }
{
    std::array::from_fn(|l| ts[l].neg())
}

// What the lanes of Z are less: a term for each lane of a row or, X being skipped, one for each row of a matrix.
// The lanes that `on` leaves out stay as they are; where Z is skipped, the terms are taken from nothing.
#[derive(Drop)]
struct Less {
    terms: [u64; 8],
    skips_x: bool,
    on: [bool; 8],
    skips_z: bool,
}

impl Less {
    // A row, each lane less its term of these; where Z is skipped, the terms with their signs flipped.
    fn row(&self, state: &mut [u8; 5120], row: usize, terms: &[u64; 8])
        requires { row < 64 }
        ensures { state.new ≡ applied (less_row row terms.now self.now.on self.now.skips_z) state.old }
    {
        if self.skips_z {
            state::put_row(state, row, &negatives(terms), &self.on);
            return;
        }
        let zs: [u64; 8] = state::row(state, row);
        let values = lanes::each::<Difference, u64, 8>(&zs, terms);
        state::put_row(state, row, &values, &self.on);
    }

    // The terms of the rows that Y lane j comes to: term j for every lane, where X is skipped, or each lane's own.
    fn row_terms(&self, j: usize) -> [u64; 8]
        requires { j < 8 }
        ensures { result ≡ row_terms self.now.skips_x self.now.terms j }
    {
        if self.skips_x {
            return [self.terms[j]; 8];
        }
        self.terms
    }

    // Row 8 j + p, where Y lane j is enabled.
    fn matrix_row(&self, state: &mut [u8; 5120], j: usize, p: usize, yon: &[bool; 8])
        requires { (j < 8) × (p < 8) }
        ensures { state.new ≡ cond (get_or yon.now j false)
            (applied (one_row 8 (8 * j + p) (λ l. get_or self.now.on l false)
            (λ l z. Fms64.less_term self.now.skips_z (get_or self.now.terms (cond self.now.skips_x j l) 0) z)) state.old)
            state.old }
    {
        if yon[j] {
            self.row(state, 8 * j + p, &self.row_terms(j));
        }
    }

    fn matrix(&self, state: &mut [u8; 5120], p: usize, yon: &[bool; 8])
        requires { p < 8 }
        ensures { state.new ≡
            applied (less_matrix p self.now.terms self.now.skips_x self.now.on yon.now self.now.skips_z) state.old }
    {
        for j in 0..8 {
            self.matrix_row(state, j, p, yon);
        }
    }
}

// ---- what an operand says

// The lanes that an enable value, of 5 bits, and the mode of 2 bits above it enable.
fn enabled(op: u64, at: u32) -> u64
    requires { at < 64 }
    ensures { result ≡ mask_of (mac16_enables 8 (bits op (at + 5) (at + 6)) (bits op at (at + 4))) 64 }
{
    let mode = operand::field(op, at + 5, at + 6);
    masks::mac16_mask(8, mode, operand::field(op, at, at + 4))
}

fn x_mask(op: u64) -> u64
    ensures { result ≡ mask_of (Fms64.x_enabled op) 64 }
{
    enabled(op, 41)
}

fn y_mask(op: u64) -> u64
    ensures { result ≡ mask_of (Fms64.y_enabled op) 64 }
{
    enabled(op, 32)
}

fn z_row(op: u64) -> usize
    ensures { (result ≡ Fms64.z_row op) × (result < 64) }
{
    operand::field(op, 20, 25) as usize
}

// Whether X and Y are skipped and Z is not: z stays.
fn keeps_z(op: u64) -> bool
    ensures { result ≡ keeps_z op }
{
    !operand::flag(op, 27) && operand::flag(op, 28) && operand::flag(op, 29)
}

// The 8 patterns of Y, or of X, from an offset on.
fn patterns(state: &[u8], y: bool, offset: u64) -> [u64; 8]
    ensures { result ≡ table (λ l. number 8 (loaded state.now (cond y y_base x_base) offset) (8 * l)) 0 8 }
{
    let bytes = state::load(state, y, offset);
    state::words(&bytes)
}

// The term of each lane: x, or y where X is skipped, or 0 where both are.
fn terms(state: &[u8], op: u64) -> [u64; 8]
    ensures { result ≡ terms_of op state.now }
{
    if operand::flag(op, 29) {
        if operand::flag(op, 28) {
            return [0; 8];
        }
        return patterns(state, true, operand::field(op, 0, 8));
    }
    patterns(state, false, operand::field(op, 10, 18))
}

fn less_of(state: &[u8], op: u64, x: u64) -> Less
    requires { x ≡ mask_of (Fms64.x_enabled op) 64 }
    ensures { (result.terms ≡ terms_of op state.now) × (result.skips_x ≡ Fms64.skips_x op)
        × (result.on ≡ table (Fms64.x_enabled op) 0 8) × (result.skips_z ≡ Fms64.skips_z op) }
{
    Less {
        terms: terms(state, op),
        skips_x: operand::flag(op, 29),
        on: masks::lanes(x),
        skips_z: operand::flag(op, 27),
    }
}

// ---- the step, on a state of 5,120 bytes

fn vector_rows(state: &mut [u8; 5120], op: u64, x: u64)
    requires { (Fms64.vector op ≡ true) × (x ≡ mask_of (Fms64.x_enabled op) 64) }
    ensures { state.new ≡ applied (Fms64.fms64 op) state.old }
{
    if keeps_z(op) {
        return;
    }
    let less = less_of(state, op, x);
    less.row(state, z_row(op), &less.terms);
}

fn matrix_rows(state: &mut [u8; 5120], op: u64, x: u64, y: u64)
    requires { (Fms64.vector op ≡ false) × (x ≡ mask_of (Fms64.x_enabled op) 64) × (y ≡ mask_of (Fms64.y_enabled op) 64) }
    ensures { state.new ≡ applied (Fms64.fms64 op) state.old }
{
    if keeps_z(op) {
        return;
    }
    let yon = masks::lanes(y);
    less_of(state, op, x).matrix(state, z_row(op) % 8, &yon);
}

// Of each form: what it leaves, and the count of bytes in enabled lanes.
fn vector_step(state: &mut [u8; 5120], op: u64) -> u64
    requires { Fms64.vector op ≡ true }
    ensures { (state.new ≡ applied (Fms64.fms64 op) state.old) × (result ≡ bytes_on (Fms64.fms64 op)) }
{
    let x = x_mask(op);
    vector_rows(state, op, x);
    masks::count_first(x, 8) * 8
}

fn matrix_step(state: &mut [u8; 5120], op: u64) -> u64
    requires { Fms64.vector op ≡ false }
    ensures { (state.new ≡ applied (Fms64.fms64 op) state.old) × (result ≡ bytes_on (Fms64.fms64 op)) }
{
    let x = x_mask(op);
    let y = y_mask(op);
    matrix_rows(state, op, x, y);
    masks::count_first(x, 8) * masks::count_first(y, 8) * 8
}

// fms64 on a state of 5,120 bytes, and the count of bytes in enabled lanes; a state of another length stays as it is.
pub fn step(state: &mut [u8], op: u64) -> u64
    ensures { (state.new ≡ cond (eqb (length state.old) register_bytes)
        (applied (Fms64.fms64 op) state.old) state.old)
        × (result ≡ cond (eqb (length state.old) register_bytes) (bytes_on (Fms64.fms64 op)) 0) }
{
    let Some(registers) = state.as_mut_array() else {
        return 0;
    };
    if operand::flag(op, 63) {
        return vector_step(registers, op);
    }
    matrix_step(registers, op)
}
