//! `solve_cnf LIMIT`: reads a formula in DIMACS on standard input, and answers on standard output: a model, a
//! refutation in LRAT, or the log of as many conflicts as the limit allows.
#![tactic(auto)]

mod examples;
mod formula_draft;
mod formula_error;
mod laws;
mod lines;
mod numbers;
mod problem_line;
mod reading;
mod run;
mod writing;

use anyhow::bail;
use std::env;
use std::io::{self, BufWriter, Read};

fn main(rt: HostRuntime) -> anyhow::Result<()> {
    let alloc = rt.alloc();
    let limit = match env::args(&rt)?.nth(1) {
        Some(word) => run::limit_of(word.as_str().as_bytes()),
        None => Some(u64::MAX),
    };
    let Some(limit) = limit else {
        bail!("the limit is no decimal number, or 0");
    };
    let mut text = Vec::new(alloc);
    rt.reader().read_to_end(&mut text)?;
    let mut out = BufWriter::new(alloc, io::writer(&rt))?;
    run::run(alloc, &text, limit, &mut out)?;
    Ok(())
}
