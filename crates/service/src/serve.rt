// One line served on a plan.

ghost use Rattle.std.specs.Prelude.{◌≡◌};
ghost use Rattle.service.specs.Faults.{serve_refusal};
ghost use Rattle.frames.specs.Writing.{Wrote};
ghost use Rattle.service.specs.Serving.{refused, reply_text, LineServed, Served};

use crate::fault::ServeFault;
use frames::answer::Answer;
use frames::call::Call;
use frames::fault::FrameFault;
use frames::read::read_call;
use frames::write::write_answer;
use yard::fault::Refusal;
use yard::plan::Plan;

// Makes the call of a line; the calls other than edits are not served yet.
// (The plan and the line are parameters here and of `serve`: a struct of both would live for one call, which is no plainer.)
fn make(plan: &mut Plan, line: &[u8]) -> Result<(), ServeFault>
    ensures { LineServed plan.old.force line.now result plan.new.force }
{
    match read_call(line)? {
        Call::Edit(edit) => Ok(plan.make(edit)?),
        Call::Place | Call::Why | Call::Dearest { .. } | Call::Nearest { .. } => Err(
            ServeFault::Frame(FrameFault::Kind),
        ),
    }
}

// How a fault is told.
fn told(fault: ServeFault) -> Answer<'static>
    ensures { result ≡ refused (serve_refusal fault) }
{
    let Refusal { rule, place } = fault.into();
    Answer::Refused {
        number: rule.number(),
        place,
    }
}

// How a call went, as a line at the head of `out`. The one place where the service writes an answer: the compiler then sees that there are two.
pub(crate) fn tell(outcome: Result<(), ServeFault>, out: &mut [u8]) -> Option<usize>
    ensures { Wrote (reply_text outcome) out.old result out.new }
{
    let answer = match outcome {
        Ok(()) => Answer::Taken,
        Err(fault) => told(fault),
    };
    write_answer(answer, out)
}

// The answer lines of a line at the head of `out`, and how many bytes they take; under 512 bytes nothing is done.
pub fn serve(plan: &mut Plan, line: &[u8], out: &mut [u8]) -> Result<usize, ServeFault>
    ensures { Served plan.old.force line.now out.old result out.new plan.new.force }
{
    if out.len() < 512 {
        return Err(ServeFault::Memory);
    }
    let Some(count) = tell(make(plan, line), out) else {
        unreachable()
    };
    Ok(count)
}
