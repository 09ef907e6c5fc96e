//! The words of calls and replies, as JSON strings.

ghost use Rattle.std.specs.Prelude.{◌≡◌, ℕ, List, [], ◌∷◌, ◌++◌, IfOk, string_bytes};
ghost use Rattle.ll_wire.specs.Grammar.{call_tokens, reply_line, reply_tokens};
ghost use Rattle.ll_why.specs.WhyJson.{words_json};

use crate::explanation::call_line;
use crate::quoted::json_string;
use ll_seq::{Call, Reply};
use ll_wire::reply_line;
use std::alloc::{AllocError, Global};

// Removes the line feed at the end of a line.
fn unended(mut line: String) -> String
    ensures { (text : List ℕ) → string_bytes line ≡ text ++ 10 ∷ [] → string_bytes result ≡ text }
{
    line.pop();
    line
}

/// Returns the call's words. Errors: memory ran out.
pub(crate) fn call_words(alloc: Global, call: &Call) -> Result<String, AllocError>
    ensures { IfOk result (λ text. string_bytes text ≡ words_json (call_tokens call.now)) }
{
    let words = unended(call_line(alloc, call)?);
    json_string(alloc, words.as_str())
}

/// Returns the reply's words. Errors: memory ran out.
pub(crate) fn reply_words(alloc: Global, reply: &Reply) -> Result<String, AllocError>
    ensures { IfOk result (λ text. string_bytes text ≡ words_json (reply_tokens reply.now)) }
{
    let words = unended(reply_line(alloc, reply)?);
    json_string(alloc, words.as_str())
}
