//! The line `p cnf`. Source: DIMACS.
ghost use Rattle.std.specs.Prelude.{◌≡◌, ◌<◌, ◌^◌, option_map, IfSome};
ghost use Rattle.solve_cnf.specs.Reading.{header_of};
ghost use Rattle.solve_cnf.specs.Header.{held_header};
ghost use Rattle.text_words.specs.Slices.{texts};

use crate::numbers::digits_number;
use std::marker::Model;

/// The number of variables, and the number of clauses as far as a `u64` holds it.
#[derive(Drop)]
pub struct Header {
    pub vars: u32,
    pub clauses: u64,
}

impl Model for Header {
    ghost use Rattle.solve_cnf.specs.Reading.{Header as HeaderValue};

    ghost Value = { HeaderValue };

    ghost view = { λ a. record { variables = a.vars; clauses = a.clauses } };
}

/// The header that the words of a line are.
pub fn header_of(words: &[&[u8]]) -> Option<Header>
    ensures value { result ≡ option_map held_header (header_of (texts words.now)) }
    ensures few { IfSome result (λ h. h.variables < 2 ^ 31) }
{
    let [p, cnf, vars, clauses] = words else {
        return None;
    };
    if *p != b"p".as_slice() || *cnf != b"cnf".as_slice() {
        return None;
    }
    let vars = digits_number(vars)?;
    let clauses = digits_number(clauses)?;
    if vars >= 1 << 31 {
        return None;
    }
    Some(Header {
        vars: vars as u32,
        clauses,
    })
}
