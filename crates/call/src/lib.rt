// What a call is answered before it is run, and its normal operand. Every function takes every argument.
#![tactic(auto)]

ghost use Rattle.std.specs.Prelude.{◌≡◌, cond, fold};
ghost use Rattle.isa.specs.declared.Answer.TheVariants.{Done};
ghost use Rattle.isa.specs.Operand.{cleared};
ghost use Rattle.isa.specs.Vecint as Vecint;
ghost use Rattle.isa.specs.Vecfp as Vecfp;
ghost use Rattle.isa.specs.Answers.{later_mode, alu_rows, known_rows, asked_rows, vecint_rows, vecfp_rows, fms64_rows, rows_above, own_rows};
ghost use Rattle.isa.specs.Answers.{first_of, passed};
ghost use Rattle.isa.specs.Normal.{vecint_ignored, vecfp_ignored, fms64_ignored, mac16_ignored, cleared_all, normal_operand, normal_of};

use isa::{Call, NotDone, Reason, Refusal};

// ---- answers

// vecint: ALU modes 7, 8, 9 and above 12.
fn reserved_mode(mode: u64) -> bool
    ensures { result ≡ Vecint.reserved_mode mode }
{
    matches!(mode, 7..=9 | 13..)
}

// ALU modes 10, 11 and 12 on generation 1.
fn later_mode(generation: u64, mode: u64) -> bool
    ensures { result ≡ later_mode generation mode }
{
    matches!(mode, 10..=12) && generation == 1
}

// A shuffle: bits 27 to 30 not all 0 outside mode 4.
fn not_covered(op: u64) -> bool
    ensures { result ≡ Vecint.not_covered op }
{
    !operand::reduces(op) && operand::field(op, 27, 30) != 0
}

// The rows of vecint and vecfp, told whether the mode is reserved and whether what it asks for is not covered.
fn alu_answered(call: Call, reserved: bool, uncovered: bool) -> Result<(), NotDone>
    ensures { result ≡ passed (first_of (alu_rows call.generation call.operand reserved uncovered) (Done 0)) }
{
    if operand::field(call.operand, 54, 56) != 0 {
        return Err(Reason::ReservedBits.into());
    }
    if reserved {
        return Err(Reason::ReservedMode.into());
    }
    if later_mode(call.generation, operand::alu_mode(call.operand)) {
        return Err(Reason::LaterGeneration.into());
    }
    if uncovered {
        return Err(Refusal::NotCovered.into());
    }
    Ok(())
}

fn vecint_answered(call: Call) -> Result<(), NotDone>
    ensures { result ≡ passed (first_of (vecint_rows call.generation call.operand) (Done 0)) }
{
    let reserved = reserved_mode(operand::alu_mode(call.operand));
    alu_answered(call, reserved, not_covered(call.operand))
}

// vecfp: ALU modes other than 0, 1, 4, 5, 7, 10, 11 and 12.
fn vecfp_reserved(mode: u64) -> bool
    ensures { result ≡ Vecfp.reserved_mode mode }
{
    !matches!(mode, 0 | 1 | 4 | 5 | 7 | 10..=12)
}

fn covered_mode(mode: u64) -> bool
    ensures { result ≡ Vecfp.covered_mode mode }
{
    matches!(mode, 4 | 10..=12)
}

fn covered_width(number: u64) -> bool
    ensures { result ≡ Vecfp.covered_width number }
{
    matches!(number, 4 | 7)
}

// An indexed load, another mode or width, or a shuffle.
fn vecfp_not_covered(op: u64) -> bool
    ensures { result ≡ Vecfp.not_covered op }
{
    operand::flag(op, 53)
        || !covered_mode(operand::alu_mode(op))
        || !covered_width(operand::field(op, 42, 45))
        || operand::field(op, 27, 30) != 0
}

fn vecfp_answered(call: Call) -> Result<(), NotDone>
    ensures { result ≡ passed (first_of (vecfp_rows call.generation call.operand) (Done 0)) }
{
    let reserved = vecfp_reserved(operand::alu_mode(call.operand));
    alu_answered(call, reserved, vecfp_not_covered(call.operand))
}

// fms64 with both inputs is not covered.
fn fms64_answered(op: u64) -> Result<(), NotDone>
    ensures { result ≡ passed (first_of (fms64_rows op) (Done 0)) }
{
    if operand::flag(op, 29) || operand::flag(op, 28) {
        return Ok(());
    }
    Err(Refusal::NotCovered.into())
}

// The rows by what a call asks for.
fn asked(call: Call) -> Result<(), NotDone>
    ensures { result ≡ passed (first_of (asked_rows call) (Done 0)) }
{
    match call.instruction {
        18 => vecint_answered(call),
        19 => vecfp_answered(call),
        11 => fms64_answered(call.operand),
        _ => Ok(()),
    }
}

// The rows by a call's generation and instruction.
fn known(call: Call) -> Result<(), NotDone>
    ensures { result ≡ passed (first_of (known_rows call) (Done 0)) }
{
    if !matches!(call.generation, 1 | 2) {
        return Err(Refusal::Generation.into());
    }
    if !matches!(call.instruction, 14 | 18 | 19 | 11) {
        return Err(Refusal::Instruction.into());
    }
    Ok(())
}

// The first row of the table that applies, for a state of so many bytes with this count. Integer steps do not go through the rows of all instructions:
// the compiler keeps those a call.
pub fn answered(length: usize, count: u64, call: Call, serial: u64) -> Result<(), NotDone>
    ensures { result ≡ passed (first_of (rows_above length count serial call) (Done 0)) }
{
    if length != 5128 {
        return Err(Refusal::StateLength.into());
    }
    known(call)?;
    if count == u64::MAX {
        return Err(Refusal::LastCount.into());
    }
    if serial != count {
        return Err(Refusal::Serial.into());
    }
    match call.instruction {
        14 => Ok(()),
        18 => vecint_answered(call),
        _ => asked(call),
    }
}

// The same where neither the state nor the serial refuses.
fn own_answered(call: Call) -> Result<(), NotDone>
    ensures { result ≡ passed (first_of (own_rows call) (Done 0)) }
{
    known(call)?;
    asked(call)
}

// ---- ignored bits

// Bits first to last cleared.
fn clear(op: u64, first: u32, last: u32) -> u64
    ensures { result ≡ cleared op first last }
{
    if 63 < first {
        return op;
    }
    op - (operand::field(op, first, last) << first)
}

// The fields cleared that are ignored, each with its first and last bit.
fn clear_all(op: u64, fields: &[(bool, u32, u32)]) -> u64
    ensures { result ≡ fold (λ kept f. cond f.0 (cleared kept f.1 f.2) kept) op fields.now }
{
    fields.iter().fold(op, |kept, &(ignored, first, last)| {
        if ignored {
            clear(kept, first, last)
        } else {
            kept
        }
    })
}

fn mac16_operand(op: u64) -> u64
    ensures { result ≡ cleared_all (mac16_ignored op) op }
{
    let vector = operand::flag(op, 63);
    let matrix32 = !vector && operand::flag(op, 62);
    let matrix16 = !vector && !matrix32;
    clear_all(
        op,
        &[
            (true, 48, 54),
            (true, 39, 40),
            (true, 30, 31),
            (true, 26, 26),
            (true, 19, 19),
            (true, 9, 9),
            (vector, 62, 62),
            (vector, 32, 38),
            (matrix16, 21, 25),
            (matrix32, 20, 25),
        ],
    )
}

// By the vectors, the ALU mode, the load (bit 52 is the ALU mode's where no load is indexed) and the rows that a vector is dealt to. In short tables,
// of which the compiler makes straight lines; of one of sixteen fields it makes a loop.
fn vecint_operand(generation: u64, op: u64) -> u64
    ensures { result ≡ cleared_all (vecint_ignored generation op) op }
{
    let saturates = operand::saturates(op);
    let reduces = operand::reduces(op);
    let rows = operand::rows_each(op);
    let always = clear_all(
        op,
        &[
            (true, 57, 57),
            (true, 46, 46),
            (true, 41, 41),
            (true, 19, 19),
            (true, 9, 9),
            (generation == 1, 31, 31),
        ],
    );
    let kept = if operand::several(generation, op) {
        clear_all(always, &[(true, 35, 40), (operand::flag(op, 25), 24, 24)])
    } else {
        always
    };
    clear_all(
        kept,
        &[
            (saturates, 58, 62),
            (saturates, 42, 45),
            (reduces, 27, 28),
            (reduces, 10, 18),
            (reduces, 0, 8),
            (operand::flag(op, 53), 52, 52),
            (rows == 2, 20, 20),
            (rows == 4, 20, 21),
        ],
    )
}

// By its vectors too: bit 37 lies below the enable mode of one vector.
fn vecfp_operand(generation: u64, op: u64) -> u64
    ensures { result ≡ cleared_all (vecfp_ignored generation op) op }
{
    let several = operand::several(generation, op);
    clear_all(
        op,
        &[
            (true, 57, 63),
            (true, 46, 46),
            (true, 41, 41),
            (true, 26, 26),
            (true, 19, 19),
            (true, 9, 9),
            (generation == 1, 31, 31),
            (several, 35, 40),
            (several && operand::flag(op, 25), 24, 24),
            (!several, 37, 37),
        ],
    )
}

// Y's enables in a vector, the high bits of the Z row in a matrix.
fn fms64_operand(op: u64) -> u64
    ensures { result ≡ cleared_all (fms64_ignored op) op }
{
    let vector = operand::flag(op, 63);
    clear_all(
        op,
        &[
            (true, 48, 62),
            (true, 39, 40),
            (true, 30, 31),
            (true, 26, 26),
            (true, 19, 19),
            (true, 9, 9),
            (vector, 32, 38),
            (!vector, 23, 25),
        ],
    )
}

fn normal_operand(call: Call) -> u64
    ensures { result ≡ normal_operand call }
{
    match call.instruction {
        14 => mac16_operand(call.operand),
        18 => vecint_operand(call.generation, call.operand),
        19 => vecfp_operand(call.generation, call.operand),
        11 => fms64_operand(call.operand),
        _ => call.operand,
    }
}

// The operand with its ignored bits cleared, or the step's own answer where the step isn't done.
pub fn normal(call: Call) -> Result<u64, NotDone>
    ensures { result ≡ normal_of call }
{
    own_answered(call)?;
    Ok(normal_operand(call))
}
