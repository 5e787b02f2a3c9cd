//! `salsa`: simplifies a netlist within a bound on its error, and checks what a simplification left. What it
//! does with its words, its files and its standard output is [`jobs::run::run_followed`].
#![tactic(auto)]

mod salsa;

use console::program::run;
use salsa::Salsa;
use std::io::IsTerminal;
use std::process::ExitCode;

fn main(rt: HostRuntime) -> ExitCode {
    run::<Salsa, HostRuntime>(&rt, rt.stderr().is_terminal())
}
