//! The program `wenc`: it runs the crate `wenc` on its arguments and the system's streams.
#![tactic(auto)]

ghost use Rattle.std.specs.Prelude.{◌≡◌, ◌⊎◌, IfErr, alloc_error};
ghost use Rattle.wenc.specs.declared.failure.Failure.TheVariants.{Arguments, Fault as FaultFailure};
ghost use Rattle.wenc_base.specs.declared.fault.Fault.TheVariants.{Memory};

use std::alloc::AllocError;
use std::env;
use std::env::FillError;
use std::io::ErrorKind;
use std::process::ExitCode;
use std::rt::Env;
use wenc::failure::Failure;
use wenc::program::report;
use wenc::run;

/// Returns the arguments without the program's name. Fails if they can't be read: an allocation
/// fails, or they aren't UTF-8.
fn arguments<R: Env + AllocGlobal>(rt: &R) -> Result<Vec<String>, Failure>
    ensures { IfErr result (λ e. (e ≡ Arguments) ⊎ (e ≡ FaultFailure (Memory alloc_error))) }
{
    if let Err(FillError::NotPresent) = rt.arg(1, &mut []) {
        return Ok(Vec::new(rt.alloc()));
    }
    let mut args = match env::args(rt) {
        Ok(args) => args,
        Err(error) => {
            return Err(match error.kind() {
                ErrorKind::OutOfMemory => Failure::from(AllocError),
                _ => Failure::Arguments,
            });
        }
    };
    let _program = args.next();
    match args.collect(rt.alloc()) {
        Ok(args) => Ok(args),
        Err(_) => Err(Failure::from(AllocError)),
    }
}

fn main(rt: HostRuntime) -> ExitCode {
    let mut err = rt.stderr();
    let status = match arguments(&rt) {
        Ok(args) => {
            let mut input = rt.stdin();
            let mut out = rt.stdout();
            run(rt.alloc(), args.as_slice(), &mut input, &mut out, &mut err)
        }
        Err(failure) => report(rt.alloc(), &mut err, failure),
    };
    ExitCode::from(status)
}
