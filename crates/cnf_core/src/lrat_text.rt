//! A log's text in pieces. Source: LRAT.
ghost use Rattle.std.specs.Prelude.{◌≡◌, ◌<◌, ◌++◌, length, None};
ghost use Rattle.semantics.specs.Texts.{line_text};
ghost use Rattle.proof_semantics.specs.Lrat.{item_line, greatest_with, lrat_text};
ghost use Rattle.cnf_core.specs.LogText.{items_text, line_rest};

use crate::literal::Literal;
use crate::log::Item;
use crate::number_list::next_of_list;
use crate::text_token::TextToken;
use crate::token_text::TokenText;
use crate::tokens::Tokens;

/// A log's text: `new` begins the text, and `fill` gives what comes next.
pub type LratText<'a> = TokenText<LratTokens<'a>>;

/// The tokens of a log's text: the beginning of each item, and each number and each end of its lists.
#[derive(Drop)]
pub struct LratTokens<'a> {
    /// What is left of the literals of the addition at hand.
    literals: Option<&'a [Literal]>,
    /// What is left of the addition's hints, or of the ids of the removal at hand.
    ids: Option<&'a [u64]>,
    /// The greatest id of the additions so far.
    greatest: u64,
    items: &'a [Item],
}

impl<'a> LratTokens<'a> {
    /// Begins the line of an item.
    fn begin(&mut self, item: &'a Item, token: &mut TextToken)
        requires { (self.old.literals ≡ None) × (self.old.ids ≡ None) }
        ensures line { line_text (item_line self.old.greatest item.now)
            ≡ token.new ++ line_rest self.new.literals self.new.ids }
        ensures some { 0 < length token.new }
        ensures greatest { self.new.greatest ≡ greatest_with self.old.greatest item.now }
        ensures items { self.new.items ≡ self.old.items }
    {
        match item {
            Item::Add(step) => {
                self.literals = Some(step.lits().as_slice());
                self.ids = Some(step.hints().as_slice());
                self.greatest = self.greatest.max(step.id());
                token.set_number(step.id(), b" ");
            }
            Item::Remove(ids) => {
                self.ids = Some(ids.as_slice());
                token.set_number(self.greatest, b" d ");
            }
        }
    }
}

impl Tokens for LratTokens<'_> {
    ghost rest = { λ w. line_rest w.literals w.ids ++ items_text w.greatest w.items.now };

    fn next(&mut self, token: &mut TextToken) -> bool {
        if next_of_list(&mut self.literals, b"0 ", token) {
            return true;
        }
        if next_of_list(&mut self.ids, b"0\n", token) {
            return true;
        }
        let Some((item, rest)) = self.items.split_first() else {
            return false;
        };
        self.items = rest;
        self.begin(item, token);
        true
    }
}

impl<'a> TokenText<LratTokens<'a>> {
    /// At the start of the log's text.
    pub fn new(log: &'a [Item]) -> LratText<'a>
        ensures { result ≡ lrat_text log.now }
    {
        let tokens = LratTokens {
            literals: None,
            ids: None,
            greatest: 0,
            items: log,
        };
        TokenText::from_tokens(TextToken::of(&[]), tokens)
    }
}
