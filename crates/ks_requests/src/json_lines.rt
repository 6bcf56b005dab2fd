//! An answer about an object as a line of JSON (RFC 8259), for scripts.
//!
//! A path may hold a `"`, and a line of a file of targets any byte but a line feed. Written as they are, they could end their
//! string, and a script would read another object or none: so all of it goes through a `Writer`. A text has a character for
//! each byte, so a target that is no UTF-8 has its line too, and no two have one text.
ghost use Rattle.std.specs.Prelude.{◌≡◌, ◌∷◌, ◌++◌, [], IfOk, OnOk, OnErr, codes, map, string_bytes};
ghost use Rattle.std.specs.Str.{IsUtf8};
ghost use Rattle.json.specs.Token.{begin_array, begin_object, end_object, key, string};
ghost use Rattle.json.specs.Tree.{items_tokens, json_tokens};
ghost use Rattle.json.specs.Value.{items_of};
ghost use Rattle.ks_engine.specs.Queries.{limit_of};
ghost use Rattle.ks_requests.specs.Faults.{fault_text};
ghost use Rattle.ks_requests.specs.JsonLines.{answer_value, asked_values, cause_value, characters, first_values, json_answer, verdict_word};
ghost use Rattle.ks_requests.specs.Statuses.{code_of, explanation_status, status_unless_refused};

use crate::faults::write_fault;
use crate::replies::answer_status;
use crate::status::Status;
use json::Writer;
use ks_engine::{Cause, EngineError, Explanation, Limit, Query, Verdict};
use std::alloc::{AllocError, Global};

/// A character for each byte, the one with that number.
fn characters(alloc: Global, bytes: &[u8]) -> Result<String, AllocError>
    ensures { IfOk result (λ text. string_bytes text ≡ characters bytes.now) }
{
    bytes.iter().map(|byte| char::from(*byte)).collect(alloc)
}

/// A member that is a text.
fn write_text(alloc: Global, name: &str, bytes: &[u8], out: &mut Writer) -> Result<(), AllocError>
    ensures tokens { OnOk result (out.new.tokens ≡ out.old.tokens ++ key name.now ∷ string (characters bytes.now) ∷ []) }
    ensures before { out.new.before ≡ out.old.before }
{
    let text = characters(alloc, bytes)?;
    out.key(name)?;
    out.string(text.as_str())
}

/// `{"name":"NAME","place":"PLACE","stamp":N}`.
fn write_cause(alloc: Global, cause: &Cause, out: &mut Writer) -> Result<(), AllocError>
    ensures tokens { OnOk result (out.new.tokens ≡ out.old.tokens ++ json_tokens (cause_value cause.now)) }
    ensures before { out.new.before ≡ out.old.before }
{
    out.begin_object()?;
    write_text(alloc, "name", cause.name.as_bytes(), out)?;
    write_text(alloc, "place", cause.place.as_bytes(), out)?;
    out.key("stamp")?;
    out.u64(cause.generation)?;
    out.end_object()
}

/// The causes, and the end of their array.
fn write_causes(alloc: Global, causes: &[Cause], out: &mut Writer) -> Result<(), AllocError>
    ensures tokens { OnOk result (out.new.tokens ≡ out.old.tokens ++ items_tokens (items_of (map cause_value causes.now))) }
    ensures before { out.new.before ≡ out.old.before }
{
    for cause in causes {
        write_cause(alloc, cause, out)?;
    }
    out.end_array()
}

/// The name of a verdict that has one, and the end of its array.
fn write_first(alloc: Global, verdict: &Verdict, out: &mut Writer) -> Result<(), AllocError>
    ensures tokens { OnOk result (out.new.tokens ≡ out.old.tokens ++ items_tokens (first_values verdict.now)) }
    ensures before { out.new.before ≡ out.old.before }
{
    match verdict {
        Verdict::Changed(name) => {
            out.begin_object()?;
            write_text(alloc, "name", name.as_bytes(), out)?;
            out.end_object()?;
            out.end_array()
        }
        Verdict::Fresh | Verdict::NoCommandFile | Verdict::Unnumbered | Verdict::Ahead => {
            out.end_array()
        }
    }
}

/// The causes that a question asks for, and the end of their array.
fn write_asked(
    alloc: Global,
    query: Query<'_>,
    explanation: &Explanation,
    out: &mut Writer,
) -> Result<(), AllocError>
    ensures tokens { OnOk result (out.new.tokens ≡ out.old.tokens ++ items_tokens (asked_values (limit_of query.entry) explanation.now)) }
    ensures before { out.new.before ≡ out.old.before }
{
    match query.limit() {
        Limit::First => write_first(alloc, &explanation.verdict, out),
        Limit::All => write_causes(alloc, &explanation.causes, out),
    }
}

#[tactic(auto, unfolding(crate::specs::JsonLines::verdict_word))]
fn word_of(verdict: &Verdict) -> &'static str
    ensures { result.now ≡ verdict_word verdict.now }
{
    match verdict {
        Verdict::Fresh => "fresh",
        Verdict::Changed(_) => "stale",
        Verdict::NoCommandFile => "no-command-file",
        Verdict::Unnumbered => "not-numbered",
        Verdict::Ahead => "generation-ahead",
    }
}

/// `{"target":"TARGET","verdict":"WORD","causes":[`.
fn write_beginning(
    alloc: Global,
    target: &[u8],
    word: &str,
    out: &mut Writer,
) -> Result<(), AllocError>
    ensures tokens { OnOk result (out.new.tokens ≡ out.old.tokens ++ begin_object ∷ key (codes "target") ∷ string (characters target.now)
        ∷ key (codes "verdict") ∷ string word.now ∷ key (codes "causes") ∷ begin_array ∷ []) }
    ensures before { out.new.before ≡ out.old.before }
{
    out.begin_object()?;
    write_text(alloc, "target", target, out)?;
    out.key("verdict")?;
    out.string(word)?;
    out.key("causes")?;
    out.begin_array()
}

/// The text of a refusal, and the end of its object.
fn write_refusal(alloc: Global, error: &EngineError, out: &mut Writer) -> Result<(), AllocError>
    ensures tokens { OnOk result (out.new.tokens ≡ out.old.tokens ++ key (codes "refused") ∷ string (characters (fault_text error.now)) ∷ end_object ∷ []) }
    ensures before { out.new.before ≡ out.old.before }
{
    let mut text = Vec::new(alloc);
    write_fault(error, &mut text)?;
    write_text(alloc, "refused", &text, out)?;
    out.end_object()
}

/// The object of an answer.
fn write_object(
    alloc: Global,
    query: Query<'_>,
    target: &[u8],
    answer: &Result<Explanation, EngineError>,
    out: &mut Writer,
) -> Result<(), AllocError>
    ensures tokens { OnOk result (out.new.tokens ≡ out.old.tokens ++ json_tokens (answer_value (limit_of query.entry) target.now answer.now)) }
    ensures before { out.new.before ≡ out.old.before }
{
    match answer {
        Ok(explanation) => {
            write_beginning(alloc, target, word_of(&explanation.verdict), out)?;
            write_asked(alloc, query, explanation, out)?;
            out.end_object()
        }
        Err(error) => {
            write_beginning(alloc, target, "refused", out)?;
            out.end_array()?;
            write_refusal(alloc, error, out)
        }
    }
}

/// The line of an answer.
#[tactic(auto, unfolding(crate::specs::JsonLines::json_answer))]
fn line_of(
    alloc: Global,
    query: Query<'_>,
    target: &[u8],
    answer: &Result<Explanation, EngineError>,
) -> Result<Vec<u8>, AllocError>
    ensures line { IfOk result (λ line. line.items ≡ json_answer (limit_of query.entry) target.now answer.now) }
    ensures utf8 { OnOk result (IsUtf8 (json_answer (limit_of query.entry) target.now answer.now)) }
{
    let mut out = Writer::new(Vec::new(alloc));
    write_object(alloc, query, target, answer, &mut out)?;
    let mut line = out.into_inner();
    line.push(b'\n')?;
    Ok(line)
}

/// Appends an answer as a line `{"target":..,"verdict":..,"causes":[..]}`, with `"refused":..` after the causes of one that is
/// refused; or leaves the text as it was.
pub fn write_json_answer(
    query: Query<'_>,
    target: &[u8],
    answer: &Result<Explanation, EngineError>,
    text: &mut Vec<u8>,
) -> Result<Status, AllocError>
    ensures line { OnOk result (text.new.items ≡ text.old.items ++ json_answer (limit_of query.entry) target.now answer.now) }
    ensures utf8 { OnOk result (IsUtf8 (json_answer (limit_of query.entry) target.now answer.now)) }
    ensures status { IfOk result (λ s. code_of s ≡ status_unless_refused explanation_status answer.now) }
    ensures kept { OnErr result (text.new.items ≡ text.old.items) }
{
    let line = line_of(*text.allocator(), query, target, answer)?;
    text.extend_from_slice(&line)?;
    Ok(answer_status(answer))
}
