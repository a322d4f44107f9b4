// What the programs share: their arguments, and how they end.
#![tactic(auto)]

ghost use Rattle.std.specs.Prelude.{◌≡◌, IfOk, is_ok, if◌then◌else◌};
ghost use Rattle.std.specs.Process.{exit_status};

use std::fmt::Display;
use std::process::ExitCode;
use std::{env, io};

#[cfg(test)]
mod tests;

// The words after the program's name.
pub fn arguments(rt: &HostRuntime) -> io::Result<Vec<String>> {
    Ok(env::args(rt)?.skip(1).collect(rt.alloc())?)
}

// The status that the program ends with. What kept it from its end is said on standard error.
pub fn status<E: Display + Drop>(
    rt: &HostRuntime,
    program: &str,
    outcome: Result<(), E>,
) -> io::Result<ExitCode>
    ensures { IfOk result (λ code. exit_status code ≡ (if is_ok outcome then 0 else 1)) }
{
    match outcome {
        Ok(()) => Ok(ExitCode::SUCCESS),
        Err(problem) => {
            eprintln!(rt; "{program}: {problem}")?;
            Ok(ExitCode::FAILURE)
        }
    }
}
