//! Lists of numbers, token by token.
ghost use Rattle.std.specs.Prelude.{◌≡◌, ◌<◌, ◌≤◌, ◌++◌, length, None, MatchBool};
ghost use Rattle.cnf_core.specs.NumberList.{list_rest};

use crate::text_token::TextToken;
use itoa::Integer;

/// Puts the next token of a list into `token`. In the text of the list a blank stands behind each number, and
/// the end behind all.
pub fn next_of_list<I: Integer>(list: &mut Option<&[I]>, end: &[u8], token: &mut TextToken) -> bool
    requires some { 0 < length end.now }
    requires short { length end.now ≤ 8 }
    ensures { MatchBool result
        ((list_rest I.text end.now list.old ≡ token.new ++ list_rest I.text end.now list.new)
        × (0 < length token.new))
        ((list.old ≡ None) × (list.new ≡ None) × (token.new ≡ token.old)) }
{
    let Some(numbers) = *list else {
        return false;
    };
    let Some((number, rest)) = numbers.split_first() else {
        *list = None;
        token.set(end);
        return true;
    };
    *list = Some(rest);
    token.set_number(*number, b" ");
    true
}
