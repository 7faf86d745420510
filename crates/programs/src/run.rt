// Running a program from standard input to standard output.
ghost use Rattle.programs.specs.declared.output.Output.{Output};
ghost use Rattle.std.specs.Prelude.{◌≡◌, true, Ok, IfOk};

use crate::input::read_text;
use crate::output::Output;
use anyhow::ensure;
use std::alloc::{AllocError, Global};

// Reads a text, and writes what the program makes of it; where that is a refusal, the process ends with an error.
pub fn run<P: FnOnce(Global, &[u8]) -> Result<Output, AllocError>>(
    rt: &HostRuntime,
    program: P,
) -> anyhow::Result<()>
    requires { P.IsAlwaysCallable program }
    ensures { IfOk result (λ _. (heap : _) × (text : _) × (output : Output) × P.post program heap text (Ok output) × (output.granted ≡ true)) }
{
    let text = read_text(rt)?;
    let output = program(rt.alloc(), &text)?;
    rt.print(output.text.as_str())?;
    ensure!(output.granted, "refused");
    Ok(())
}
