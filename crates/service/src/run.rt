// A whole input served.

ghost use Rattle.std.specs.Prelude.{◌≡◌, ℕ, List, ◌++◌, Err, IfOk};
ghost use Rattle.service.specs.declared.fault.ServeFault.TheVariants.{Memory};
ghost use Rattle.service.specs.Serving.{reply_text};
ghost use Rattle.service.specs.Output.{Gives};

use crate::fault::ServeFault;
use crate::serve::{serve, tell};
use frames::lines::Lines;
use std::alloc::{AllocError, Global};
use yard::plan::Plan;

// The longest input that is served, in bytes.
pub const MOST_SERVED: usize = 32_768;

// Tells in `output` that the input is too long.
fn refuse(output: &mut Vec<u8>) -> Result<(), AllocError>
    ensures { IfOk result (λ _. output.new.items ≡ output.old.items ++ reply_text (Err Memory)) }
{
    let mut buffer = [0; 512];
    let Some(count) = tell(Err(ServeFault::Memory), &mut buffer) else {
        unreachable()
    };
    output.extend_from_slice(&buffer[0..count])
}

// Every line of the input served in order on one new plan; an input over 32,768 bytes gets only a refusal.
pub fn serve_input(heap: Global, input: &[u8]) -> Result<Vec<u8>, AllocError>
    ensures gives { IfOk result (λ v. Gives input.now v.items) }
    ensures once { IfOk result (λ v. (other : List ℕ) → Gives input.now other → v.items ≡ other) }
{
    let mut output = Vec::new(heap);
    if input.len() > MOST_SERVED {
        refuse(&mut output)?;
        return Ok(output);
    }
    let mut plan = Plan::new();
    for line in Lines::new(input) {
        let mut buffer = [0; 512];
        let Ok(count) = serve(&mut plan, line, &mut buffer) else {
            unreachable()
        };
        output.extend_from_slice(&buffer[0..count])?;
    }
    Ok(output)
}
