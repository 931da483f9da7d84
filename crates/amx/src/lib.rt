// The unit: one step of any instruction, the normal operand, and what a host calls, which crates/amx_c exports.
#![tactic(auto)]

ghost use Rattle.std.specs.Prelude.{◌≡◌, cond, ◌+◌, ◌<◌, eqb, length};
ghost use Rattle.isa.specs.State.{register_bytes, state_length, registers_of, count_of, last_count, state_of};
ghost use Rattle.isa.specs.Effect.{applied, bytes_on};
ghost use Rattle.isa.specs.Call.{call, effect_of};
ghost use Rattle.isa.specs.Answers.{answer_of, host_number, normal_number};
ghost use Rattle.isa.specs.Step.{stepped};
ghost use Rattle.isa.specs.Normal.{normal_of, handed_back};
ghost use Rattle.file.specs.File.{checkpoint_in, stored_bytes};

use isa::{Answer, Call, NotDone};
use number::Lane;

// The serial due: the count of steps taken.
pub fn due(state: &[u8]) -> u64
    ensures { result ≡ count_of state.now }
{
    u64::get(state, 5120)
}

// What a call does to the registers where it is done, and the count of bytes in enabled lanes.
#[tactic(auto, using(crate::proofs::Table::left_by_nothing, crate::proofs::Table::counted_by_nothing))]
fn run(registers: &mut [u8], call: Call) -> u64
    ensures { (registers.new ≡ cond (eqb (length registers.old) register_bytes) (applied (effect_of call) registers.old) registers.old)
        × (result ≡ cond (eqb (length registers.old) register_bytes) (bytes_on (effect_of call)) 0) }
{
    match call.instruction {
        14 => mac16::step(registers, call.operand),
        18 => vecint::step(registers, call.generation, call.operand),
        19 => vecfp::step(registers, call.generation, call.operand),
        11 => fms64::step(registers, call.operand),
        _ => 0,
    }
}

// One more step taken.
fn raise(state: &mut [u8], count: u64)
    requires { (length state.old ≡ state_length) × (count < last_count) }
    ensures { state.new ≡ state_of (registers_of state.old) (count + 1) }
{
    (count + 1).put(state, 5120);
}

// What a done step leaves: its effect on the registers, and the count raised.
fn done(state: &mut [u8], count: u64, call: Call) -> u64
    requires { (length state.old ≡ state_length) × (count < last_count) }
    ensures { (state.new ≡ state_of (applied (effect_of call) (registers_of state.old)) (count + 1))
        × (result ≡ bytes_on (effect_of call)) }
{
    let bytes = run(&mut state[..5120], call);
    raise(state, count);
    bytes
}

// One step. A no-op raises the count alone, and a refusal leaves the state as it is.
pub fn step(
    state: &mut [u8],
    instruction: u64,
    generation: u64,
    operand: u64,
    serial: u64,
) -> Answer
    ensures { (state.new ≡ stepped (call instruction generation operand) serial state.old)
        × (result ≡ answer_of state.old (call instruction generation operand) serial) }
{
    let call = Call {
        instruction,
        generation,
        operand,
    };
    let count = due(state);
    match call::answered(state.len(), count, call, serial) {
        Ok(()) => Answer::Done {
            bytes: done(state, count, call),
        },
        Err(NotDone::NoOp(r)) => {
            raise(state, count);
            Answer::NoOp(r)
        }
        Err(NotDone::Refused(r)) => Answer::Refused(r),
    }
}

// The operand with its ignored bits cleared, or the step's own no-op or refusal.
pub fn normal(instruction: u64, generation: u64, operand: u64) -> Result<u64, NotDone>
    ensures { result ≡ normal_of (call instruction generation operand) }
{
    call::normal(Call {
        instruction,
        generation,
        operand,
    })
}

// ---- for a host: numbers and lent bytes

pub fn amx_step(
    state: &mut [u8],
    instruction: u64,
    generation: u64,
    operand: u64,
    serial: u64,
) -> u64
    ensures { (state.new ≡ stepped (call instruction generation operand) serial state.old)
        × (result ≡ host_number (answer_of state.old (call instruction generation operand) serial)) }
{
    step(state, instruction, generation, operand, serial).into()
}

pub fn amx_normal_answer(instruction: u64, generation: u64, operand: u64) -> u64
    ensures { result ≡ normal_number (normal_of (call instruction generation operand)) }
{
    match normal(instruction, generation, operand) {
        Ok(_) => 0,
        Err(e) => e.into(),
    }
}

// The operand as given where the step isn't done.
pub fn amx_normal_operand(instruction: u64, generation: u64, operand: u64) -> u64
    ensures { result ≡ handed_back operand (normal_of (call instruction generation operand)) }
{
    normal(instruction, generation, operand).unwrap_or(operand)
}

// The third section of a trace that was stopped after so many steps, and its length; 0 where nothing is stored.
pub fn amx_checkpoint(state: &[u8], consumed: u64, out: &mut [u8]) -> u64
    ensures { (out.new ≡ checkpoint_in out.old consumed state.now)
        × (result ≡ stored_bytes out.old consumed state.now) }
{
    file::put_checkpoint(out, consumed, state) as u64
}
