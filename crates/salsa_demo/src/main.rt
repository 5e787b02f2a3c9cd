//! `salsa demo` as a program of its own: it stands on the crates alone that make, simplify and write, so it
//! is proved long before the whole. What it does is [`synth_jobs::demonstration::demonstrate`], which `salsa`
//! calls too.
#![tactic(auto)]

mod demonstration;

use console::program::run;
use demonstration::Demonstration;
use std::io::IsTerminal;
use std::process::ExitCode;

fn main(rt: HostRuntime) -> ExitCode {
    run::<Demonstration, HostRuntime>(&rt, rt.stderr().is_terminal())
}
