// residue CODE BITS: divides a response by a feedback and says quotient and remainder.
#![tactic(auto)]

use anyhow::bail;
use explain::explain;
use std::env;
use std::process::ExitCode;

// Whatever goes wrong is told on standard error, and the status is 1.
fn main(rt: HostRuntime) -> ExitCode {
    match run(&rt) {
        Ok(()) => ExitCode::SUCCESS,
        Err(problem) => {
            let _ = eprintln!(rt; "residue: {problem}");
            ExitCode::FAILURE
        }
    }
}

fn run(rt: &HostRuntime) -> anyhow::Result<()> {
    let mut args = env::args(rt)?.skip(1);
    let (Some(code), Some(bits), None) = (args.next(), args.next(), args.next()) else {
        bail!("usage: residue CODE BITS");
    };
    rt.print(explain(rt.alloc(), code.as_bytes(), bits.as_bytes())?)?;
    Ok(())
}
