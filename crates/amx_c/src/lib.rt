// What a host in C or Rust links (include/amx.h): the functions of crates/amx by their C names. A crate is a library or a static library, not both.
#![tactic(auto)]

ghost use Rattle.std.specs.Prelude.{◌≡◌};
ghost use Rattle.isa.specs.Call as Calls;
ghost use Rattle.isa.specs.Answers.{answer_of, host_number, normal_number};
ghost use Rattle.isa.specs.Step.{stepped};
ghost use Rattle.isa.specs.Normal.{normal_of, handed_back};
ghost use Rattle.file.specs.File.{checkpoint_in, stored_bytes};

#[unsafe(no_mangle)]
pub extern "C" fn amx_step(
    state: &mut [u8],
    instruction: u64,
    generation: u64,
    operand: u64,
    serial: u64,
) -> u64
    ensures { (state.new ≡ stepped (Calls.call instruction generation operand) serial state.old)
        × (result ≡ host_number (answer_of state.old (Calls.call instruction generation operand) serial)) }
{
    amx::amx_step(state, instruction, generation, operand, serial)
}

#[unsafe(no_mangle)]
pub extern "C" fn amx_normal_answer(instruction: u64, generation: u64, operand: u64) -> u64
    ensures { result ≡ normal_number (normal_of (Calls.call instruction generation operand)) }
{
    amx::amx_normal_answer(instruction, generation, operand)
}

// The operand as given where the step isn't done.
#[unsafe(no_mangle)]
pub extern "C" fn amx_normal_operand(instruction: u64, generation: u64, operand: u64) -> u64
    ensures { result ≡ handed_back operand (normal_of (Calls.call instruction generation operand)) }
{
    amx::amx_normal_operand(instruction, generation, operand)
}

// The third section of a trace that was stopped after so many steps, and its length; 0 where nothing is stored.
#[unsafe(no_mangle)]
pub extern "C" fn amx_checkpoint(state: &[u8], consumed: u64, out: &mut [u8]) -> u64
    ensures { (out.new ≡ checkpoint_in out.old consumed state.now)
        × (result ≡ stored_bytes out.old consumed state.now) }
{
    amx::amx_checkpoint(state, consumed, out)
}
