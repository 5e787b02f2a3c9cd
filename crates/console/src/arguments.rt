//! The words of the command line.
ghost use Rattle.std.specs.Prelude.{◌≡◌, [], ◌∷◌, map, drop, string_bytes, IsErr, IfOk};
ghost use Rattle.std.specs.Vec.Iter.{into_iter_items};

use file_core::word::Word;
use std::alloc::{AllocError, Global};
use std::env::Args;
use std::rt::Env;
use std::{env, io};

/// The words behind the program's name. The library gives all arguments as text, or none. Where it gives none
/// for another reason than memory, the words are one empty word, which no job has.
pub fn words(rt: &(impl Env + AllocGlobal)) -> Result<Vec<Word>, AllocError> {
    words_given(rt.alloc(), env::args(rt))
}

/// The words of the arguments that the library gives, or one empty word where it gives none.
fn words_given(alloc: Global, given: io::Result<Args>) -> Result<Vec<Word>, AllocError>
    ensures given { IfOk given (λ arguments. IfOk result
        (λ words. words.items ≡ map string_bytes (drop 1 (into_iter_items arguments)))) }
    ensures none { IsErr given → IfOk result (λ words. words.items ≡ [] ∷ []) }
{
    match given {
        Ok(arguments) => after_first(alloc, arguments),
        Err(refused) if refused.kind() == io::ErrorKind::OutOfMemory => Err(AllocError),
        Err(_) => {
            let mut words = Vec::new(alloc);
            words.push(Word::new(alloc, b"")?)?;
            Ok(words)
        }
    }
}

/// The arguments after the first, which is the program's name, as words.
fn after_first(alloc: Global, mut arguments: Args) -> Result<Vec<Word>, AllocError>
    ensures { IfOk result (λ words. words.items ≡ map string_bytes (drop 1 (into_iter_items arguments))) }
{
    let _name = arguments.next();
    let mut words = Vec::new(alloc);
    for argument in arguments {
        words.push(Word::new(alloc, argument.as_bytes())?)?;
    }
    Ok(words)
}
