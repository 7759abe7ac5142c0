//! The request that words spell.

ghost use Rattle.std.specs.Prelude.{◌≡◌, ◌≢◌, IfOk, IfErr};
ghost use Rattle.std.specs.String.{string_bytes};
ghost use Rattle.desk_json.specs.declared.request.Request.TheVariants.{BadCommand};
ghost use Rattle.desk_assignments.specs.Requests.{IsTold, IsToldAs, IsTrouble, IsTroubleOf, operand_at, request_in_words, words_request};
ghost use Rattle.desk_assignments.specs.Words.{words_data};

use crate::line::{WordsFault, request_line};
use crate::trouble::WordsTrouble;
use crate::verb::Verb;
use desk_base::Text;
use desk_json::{Request, read_command};
use desk_words::{RequestTrouble, request_trouble, request_usage};
use std::alloc::{AllocError, Global};

/// The operand with this number.
fn operand_at(alloc: Global, operands: &[Text], place: usize) -> Result<String, AllocError>
    ensures { IfOk result (λ operand. string_bytes operand ≡ operand_at operands.now place) }
{
    match operands.get(place) {
        Some(operand) => String::from_str(alloc, operand.as_str()),
        None => Ok(String::new(alloc)),
    }
}

/// Why the line of words is no request. If nothing else is found, it is longer than one may be.
fn line_trouble(alloc: Global, line: &[u8]) -> Result<RequestTrouble, AllocError> {
    match request_trouble(alloc, line)? {
        Some(trouble) => Ok(trouble),
        None => Ok(RequestTrouble::TooLong),
    }
}

/// A fault of words, in words.
fn told(
    alloc: Global,
    fault: WordsFault,
    verb: Verb,
    word: &str,
    operands: &[Text],
) -> Result<WordsTrouble, AllocError>
    ensures memory { IfOk result (λ trouble. fault ≡ WordsFault.Memory → trouble ≡ WordsTrouble.Memory) }
    ensures told { IfOk result (IsToldAs operands.now fault) }
{
    let usage = request_usage(alloc, verb.key(), word)?;
    match fault {
        WordsFault::Memory => Ok(WordsTrouble::Memory),
        WordsFault::NoAssignment(place) => Ok(WordsTrouble::NoAssignment(
            operand_at(alloc, operands, place)?,
            usage,
        )),
        WordsFault::Repeated(place) => Ok(WordsTrouble::Repeated(
            operand_at(alloc, operands, place)?,
            usage,
        )),
    }
}

/// The request of a word and of assignments.
fn read_request(
    alloc: Global,
    verb: Verb,
    word: &str,
    operands: &[Text],
) -> Result<Request, WordsTrouble>
    ensures ok { IfOk result (λ request. (words_request verb word.now operands.now ≡ request)
        × (request ≢ BadCommand)) }
    ensures err { IfErr result (IsTold (words_request verb word.now operands.now)) }
    ensures why { IfErr result
        (IsTroubleOf operands.now (words_data verb word.now operands.now)) }
{
    let line = match request_line(alloc, verb, word, operands) {
        Ok(line) => line,
        Err(fault) => return Err(told(alloc, fault, verb, word, operands)?),
    };
    match read_command(alloc, line.as_bytes())? {
        Request::BadCommand => {
            let trouble = line_trouble(alloc, line.as_bytes())?;
            let usage = request_usage(alloc, verb.key(), word)?;
            Err(WordsTrouble::NoRequest(trouble, usage))
        }
        request => Ok(request),
    }
}

/// The request that words spell: the first is that of `do` or `ask`, and the others are
/// assignments, each of a text, a number or, for `terms`, of texts with commas between them.
///
/// # Errors
///
/// Out of memory, or what is wrong with the words, with the keys that the word has.
pub fn read_words(alloc: Global, verb: Verb, words: &[Text]) -> Result<Request, WordsTrouble>
    ensures ok { IfOk result (λ request. (request_in_words verb words.now ≡ request)
        × (request ≢ BadCommand)) }
    ensures err { IfErr result (IsTold (request_in_words verb words.now)) }
    ensures why { IfErr result (IsTrouble verb words.now) }
{
    match words.split_first() {
        Some((word, operands)) => read_request(alloc, verb, word.as_str(), operands),
        None => {
            let usage = request_usage(alloc, verb.key(), "")?;
            Err(WordsTrouble::NoRequest(RequestTrouble::NoWord, usage))
        }
    }
}
