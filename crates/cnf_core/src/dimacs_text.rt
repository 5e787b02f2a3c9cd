//! A formula's text in pieces. Source: DIMACS.
ghost use Rattle.std.specs.Prelude.{◌≡◌};
ghost use Rattle.semantics.specs.Texts.{line_text};
ghost use Rattle.proof_semantics.specs.Formula.{header_line, dimacs_text};
ghost use Rattle.cnf_core.specs.FormulaText.{clauses_rest};

use crate::clause::Lits;
use crate::cnf::Cnf;
use crate::literal::Literal;
use crate::number_list::next_of_list;
use crate::text_token::TextToken;
use crate::token_text::TokenText;
use crate::tokens::Tokens;
use itoa::Buffer;

/// A formula's text: `new` begins the text, and `fill` gives what comes next.
pub type DimacsText<'a> = TokenText<DimacsTokens<'a>>;

/// The tokens behind the header: each literal, and each end of a clause.
#[derive(Drop)]
pub struct DimacsTokens<'a> {
    /// What is left of the clause at hand.
    clause: Option<&'a [Literal]>,
    clauses: &'a [Lits],
}

impl Tokens for DimacsTokens<'_> {
    ghost rest = { λ w. clauses_rest w.clause w.clauses.now };

    fn next(&mut self, token: &mut TextToken) -> bool {
        if next_of_list(&mut self.clause, b"0\n", token) {
            return true;
        }
        let Some((first, rest)) = self.clauses.split_first() else {
            return false;
        };
        self.clause = Some(first.as_slice());
        self.clauses = rest;
        next_of_list(&mut self.clause, b"0\n", token)
    }
}

/// The header is one token.
fn header(cnf: &Cnf) -> TextToken
    ensures { result ≡ line_text (header_line cnf.now) }
{
    let mut variables = Buffer::new();
    let mut clauses = Buffer::new();
    TextToken::of(&[
        b"p cnf ",
        variables.format(cnf.vars()).as_bytes(),
        b" ",
        clauses.format(cnf.clauses().len()).as_bytes(),
        b"\n",
    ])
}

impl<'a> TokenText<DimacsTokens<'a>> {
    /// At the start of the formula's text.
    pub fn new(cnf: &'a Cnf) -> DimacsText<'a>
        ensures { result ≡ dimacs_text cnf.now }
    {
        let tokens = DimacsTokens {
            clause: None,
            clauses: cnf.clauses().as_slice(),
        };
        TokenText::from_tokens(header(cnf), tokens)
    }
}
