//! The texts of refusals.
ghost use Rattle.std.specs.Prelude.{◌≡◌};
ghost use Rattle.blif_text.specs.Messages.{which_text};

use crate::refusal::BlifRefusal;
use semantics::which::Which;
use std::error::Error;
use std::fmt;

/// The bytes of a name or a word, which are text.
#[derive(Drop)]
struct Text<'a>(&'a [u8]);

impl<'a> fmt::Display for Text<'a> {
    ghost use Rattle.std.specs.Prelude.{Some};

    ghost output = { λ t. Some t.0.now };

    fn fmt<W: fmt::Write>(&self, f: &mut fmt::Formatter<W>) -> fmt::Result {
        match str::from_utf8(self.0) {
            Ok(text) => f.write_str(text),
            Err(_) => Err(fmt::Error),
        }
    }
}

fn which_text(which: Which) -> &'static str
    ensures { result.now ≡ which_text which }
{
    match which {
        Which::Inputs => "inputs",
        Which::Outputs => "outputs",
        Which::Tables => "tables",
        Which::Pins => "pins in one table",
        Which::AllPins => "pins",
        Which::Rows => "rows",
    }
}

impl fmt::Display for BlifRefusal {
    ghost use Rattle.std.specs.Prelude.{Some};
    ghost use Rattle.blif_text.specs.Messages.{refusal_text};

    ghost output = { λ r. Some (refusal_text r) };

    fn fmt<W: fmt::Write>(&self, f: &mut fmt::Formatter<W>) -> fmt::Result {
        match self {
            BlifRefusal::TextLong => f.write_str("text too long"),
            BlifRefusal::BadByte { line } => write!(f, "line {line}: bad byte"),
            BlifRefusal::Command { line, word } => {
                write!(f, "line {line}: unknown command {}", Text(word.bytes()))
            }
            BlifRefusal::StrayRow { line } => write!(f, "line {line}: row without a table"),
            BlifRefusal::BadRow { line } => write!(f, "line {line}: bad row"),
            BlifRefusal::MixedPlane { line } => write!(f, "line {line}: mixed planes"),
            BlifRefusal::SecondModel { line } => write!(f, "line {line}: second model"),
            BlifRefusal::AfterEnd { line } => write!(f, "line {line}: text after .end"),
            BlifRefusal::NamesEmpty { line } => write!(f, "line {line}: .names without a name"),
            BlifRefusal::BadName { line } => write!(f, "line {line}: bad name"),
            BlifRefusal::Doubled { name } => write!(f, "{} is driven twice", Text(name.bytes())),
            BlifRefusal::Undriven { name } => write!(f, "{} is not driven", Text(name.bytes())),
            BlifRefusal::NoOutput => f.write_str("no output"),
            BlifRefusal::Cycle { name } => {
                write!(f, "{} depends on itself or on a cycle", Text(name.bytes()))
            }
            BlifRefusal::Limit { which } => write!(f, "too many {}", which_text(*which)),
            BlifRefusal::OutOfMemory => f.write_str("out of memory"),
        }
    }
}

impl Error for BlifRefusal {}
