//! The lines that are printed of what the engine answers, and the status that answers come to.
//!
//! A line of a verdict or of a refusal is the same for one object and in a script.
ghost use Rattle.std.specs.Prelude.{◌≡◌, ◌++◌, List, ℕ, None, OnOk, IfOk, flat_map, map, length};
ghost use Rattle.ks_engine.specs.Actions.{action};
ghost use Rattle.ks_engine.specs.Queries.{limit_of};
ghost use Rattle.ks_requests.specs.Faults.{counted};
ghost use Rattle.ks_requests.specs.Replies.{answer_line, build_line, cause_line, depfile_line, explanation_lines, marked_line, recorded_as, recorded_line, refused_line, refused_target_line, repair_line, reply_line, reply_lines, report_lines, synced_line, verdict_line, verdict_text};
ghost use Rattle.ks_requests.specs.Statuses.{build_status, code_of, explanation_status, reply_status, status_unless_refused, verdict_status, worst};

use crate::faults::write_fault;
use crate::preview::write_touches;
use crate::status::{Outcome, Status, worse};
use itoa::Buffer;
use ks_engine::{
    BuildState, Cause, Command, EngineError, Explanation, Limit, Query, Recorded, Repaired, Reply,
    Report, Verdict,
};
use std::alloc::{AllocError, Global};

/// Room for a usual line of a reply. Where there is enough of it no text is copied to a larger place.
const USUAL_LINE: usize = 64;

#[tactic(auto, unfolding(crate::specs::Replies::verdict_text))]
fn write_verdict(verdict: &Verdict, text: &mut Vec<u8>) -> Result<(), AllocError>
    ensures { OnOk result (text.new.items ≡ text.old.items ++ verdict_text verdict.now) }
{
    match verdict {
        Verdict::Fresh => text.extend_from_slice(b" fresh"),
        Verdict::Changed(name) => {
            text.extend_from_slice(b" stale ")?;
            text.extend_from_slice(name.as_bytes())
        }
        Verdict::NoCommandFile => text.extend_from_slice(b" stale no-command-file"),
        Verdict::Unnumbered => text.extend_from_slice(b" stale not-numbered"),
        Verdict::Ahead => text.extend_from_slice(b" stale generation-ahead"),
    }
}

/// Appends a number after its label.
#[tactic(auto, unfolding(crate::specs::Faults::counted))]
pub fn write_count(label: &[u8], count: u64, text: &mut Vec<u8>) -> Result<(), AllocError>
    ensures { OnOk result (text.new.items ≡ text.old.items ++ counted label.now count) }
{
    text.extend_from_slice(label)?;
    text.extend_from_slice(Buffer::new().format(count).as_bytes())
}

/// Appends `TARGET fresh` or `TARGET stale REASON`. After an error a beginning of the line may stand there, as after that of
/// each call below that appends.
#[tactic(auto, unfolding(crate::specs::Replies::verdict_line))]
pub fn write_verdict_line(
    target: &[u8],
    verdict: &Verdict,
    text: &mut Vec<u8>,
) -> Result<(), AllocError>
    ensures { OnOk result (text.new.items ≡ text.old.items ++ verdict_line target.now verdict.now) }
{
    text.extend_from_slice(target)?;
    write_verdict(verdict, text)?;
    text.extend_from_slice(b"\n")
}

/// `  NAME generation G PLACE`.
#[tactic(auto, unfolding(crate::specs::Replies::cause_line))]
fn write_cause(cause: &Cause, text: &mut Vec<u8>) -> Result<(), AllocError>
    ensures { OnOk result (text.new.items ≡ text.old.items ++ cause_line cause.now) }
{
    text.extend_from_slice(b"  ")?;
    text.extend_from_slice(cause.name.as_bytes())?;
    write_count(b" generation ", cause.generation, text)?;
    text.extend_from_slice(b" ")?;
    text.extend_from_slice(cause.place.as_bytes())?;
    text.extend_from_slice(b"\n")
}

/// A line for each cause.
fn write_causes(causes: &[Cause], text: &mut Vec<u8>) -> Result<(), AllocError>
    ensures { OnOk result (text.new.items ≡ text.old.items ++ flat_map cause_line causes.now) }
{
    for cause in causes {
        write_cause(cause, text)?;
    }
    Ok(())
}

/// The line of a verdict, and where all causes were asked for a line for each.
#[tactic(auto, unfolding(crate::specs::Replies::explanation_lines))]
fn write_explanation(
    query: Query<'_>,
    target: &[u8],
    explanation: &Explanation,
    text: &mut Vec<u8>,
) -> Result<(), AllocError>
    ensures { OnOk result (text.new.items ≡ text.old.items ++ explanation_lines (limit_of query.entry) target.now explanation.now) }
{
    write_verdict_line(target, &explanation.verdict, text)?;
    match query.limit() {
        Limit::First => Ok(()),
        Limit::All => write_causes(&explanation.causes, text),
    }
}

/// `TARGET generation N names M`, after a command.
fn write_recorded_as(
    command: &[u8],
    target: &[u8],
    recorded: &Recorded,
    text: &mut Vec<u8>,
) -> Result<(), AllocError>
    ensures { OnOk result (text.new.items ≡ text.old.items ++ recorded_as command.now target.now recorded.now) }
{
    text.extend_from_slice(command)?;
    text.extend_from_slice(target)?;
    write_count(b" generation ", recorded.generation, text)?;
    write_count(b" names ", recorded.names as u64, text)?;
    text.extend_from_slice(b"\n")
}

/// `record TARGET generation N names M`.
#[tactic(auto, unfolding(crate::specs::Replies::recorded_line))]
fn write_recorded_line(
    target: &[u8],
    recorded: &Recorded,
    text: &mut Vec<u8>,
) -> Result<(), AllocError>
    ensures { OnOk result (text.new.items ≡ text.old.items ++ recorded_line target.now recorded.now) }
{
    write_recorded_as(b"record ", target, recorded, text)
}

/// `depfile TARGET generation N names M`.
#[tactic(auto, unfolding(crate::specs::Replies::depfile_line))]
fn write_depfile_line(
    target: &[u8],
    recorded: &Recorded,
    text: &mut Vec<u8>,
) -> Result<(), AllocError>
    ensures { OnOk result (text.new.items ≡ text.old.items ++ depfile_line target.now recorded.now) }
{
    write_recorded_as(b"depfile ", target, recorded, text)
}

/// `sync generation N touched M unknown U`.
#[tactic(auto, unfolding(crate::specs::Replies::synced_line))]
fn write_synced_line(report: &Report, text: &mut Vec<u8>) -> Result<(), AllocError>
    ensures { OnOk result (text.new.items ≡ text.old.items ++ synced_line report.now) }
{
    write_count(b"sync generation ", report.generation, text)?;
    write_count(b" touched ", report.touched.len() as u64, text)?;
    write_count(b" unknown ", report.unknown, text)?;
    text.push(b'\n')?;
    Ok(())
}

/// The lines `generation N`, `touch NAME` for each touched name, and `unknown U`.
#[tactic(auto, unfolding(crate::specs::Replies::report_lines))]
fn write_report(report: &Report, text: &mut Vec<u8>) -> Result<(), AllocError>
    ensures { OnOk result (text.new.items ≡ text.old.items ++ report_lines report.now) }
{
    write_count(b"generation ", report.generation, text)?;
    text.extend_from_slice(b"\n")?;
    write_touches(&report.touched, text)?;
    write_count(b"unknown ", report.unknown, text)?;
    text.push(b'\n')?;
    Ok(())
}

/// `refused FAULT`.
#[tactic(auto, unfolding(crate::specs::Replies::refused_line))]
fn write_refusal(error: &EngineError, text: &mut Vec<u8>) -> Result<(), AllocError>
    ensures { OnOk result (text.new.items ≡ text.old.items ++ refused_line error.now) }
{
    text.extend_from_slice(b"refused ")?;
    write_fault(error, text)?;
    text.extend_from_slice(b"\n")
}

/// Appends `TARGET refused FAULT`, for a question that was refused.
#[tactic(auto, unfolding(crate::specs::Replies::refused_target_line))]
pub fn write_refused_target(
    target: &[u8],
    error: &EngineError,
    text: &mut Vec<u8>,
) -> Result<(), AllocError>
    ensures { OnOk result (text.new.items ≡ text.old.items ++ refused_target_line target.now error.now) }
{
    text.extend_from_slice(target)?;
    text.extend_from_slice(b" ")?;
    write_refusal(error, text)
}

/// Appends the lines of an answer: `TARGET refused FAULT`, or its verdict, and after `why` a line `  NAME generation G PLACE` for
/// each of its causes.
pub fn write_answer(
    query: Query<'_>,
    target: &[u8],
    answer: &Result<Explanation, EngineError>,
    text: &mut Vec<u8>,
) -> Result<Status, AllocError>
    ensures lines { OnOk result (text.new.items ≡ text.old.items ++ answer_line (explanation_lines (limit_of query.entry)) target.now answer.now) }
    ensures status { IfOk result (λ s. code_of s ≡ status_unless_refused explanation_status answer.now) }
{
    match answer {
        Ok(explanation) => {
            write_explanation(query, target, explanation, text)?;
            Ok(verdict_status(&explanation.verdict))
        }
        Err(error) => {
            write_refused_target(target, error, text)?;
            Ok(Status::Refused)
        }
    }
}

/// The line of a command with its reply.
#[tactic(auto, unfolding(crate::specs::Replies::reply_line))]
fn write_reply(command: &Command<'_>, reply: &Reply, text: &mut Vec<u8>) -> Result<(), AllocError>
    ensures { OnOk result (text.new.items ≡ text.old.items ++ reply_line (action command.now) reply.now) }
{
    match (command, reply) {
        (Command::Sync { .. }, Reply::Synced(report)) => write_synced_line(report, text),
        (Command::Record { target, .. }, Reply::Recorded(recorded)) => {
            write_recorded_line(*target, recorded, text)
        }
        (Command::Stale { target }, Reply::Verdict(verdict)) => {
            write_verdict_line(*target, verdict, text)
        }
        (Command::Stale { target }, Reply::Refused(error)) => {
            write_refused_target(*target, error, text)
        }
        (_, Reply::Refused(error)) => write_refusal(error, text),
        _ => Ok(()),
    }
}

/// The lines of commands with their replies, in order, and what these come to: one that is refused has its line, as any
/// other, and makes the status `Refused`.
pub fn report_replies(
    alloc: Global,
    commands: &[Command<'_>],
    replies: &[Reply],
) -> Result<Outcome, AllocError>
    requires { length replies.now ≡ length commands.now }
    ensures lines { IfOk result (λ o. o.text.items ≡ reply_lines (map action commands.now) replies.now) }
    ensures status { IfOk result (λ o. code_of o.status ≡ worst (map reply_status replies.now)) }
    ensures no_count { IfOk result (λ o. o.count ≡ None) }
{
    let mut text = Vec::with_capacity(alloc, replies.len().saturating_mul(USUAL_LINE))?;
    let mut status = Status::Done;
    for (index, command) in commands.iter().enumerate() {
        let reply = &replies[index];
        write_reply(command, reply, &mut text)?;
        status = worse(status, reply_status(reply));
    }
    Ok(Outcome::of(text, status))
}

/// Appends `TARGET command-differs`, or the line of its verdict.
#[tactic(auto, unfolding(crate::specs::Replies::build_line))]
pub fn write_build_line(
    target: &[u8],
    state: &BuildState,
    text: &mut Vec<u8>,
) -> Result<(), AllocError>
    ensures { OnOk result (text.new.items ≡ text.old.items ++ build_line target.now state.now) }
{
    match state {
        BuildState::CommandDiffers => {
            text.extend_from_slice(target)?;
            text.extend_from_slice(b" command-differs\n")
        }
        BuildState::Verdict(verdict) => write_verdict_line(target, verdict, text),
    }
}

/// What a verdict comes to: all but fresh is stale.
fn verdict_status(verdict: &Verdict) -> Status
    ensures { code_of result ≡ verdict_status verdict.now }
{
    match verdict {
        Verdict::Fresh => Status::Done,
        _ => Status::Stale,
    }
}

/// What an answer comes to: a refused object is more than a stale one.
pub(crate) fn answer_status(answer: &Result<Explanation, EngineError>) -> Status
    ensures { code_of result ≡ status_unless_refused explanation_status answer.now }
{
    match answer {
        Ok(explanation) => verdict_status(&explanation.verdict),
        Err(_) => Status::Refused,
    }
}

/// What the state of an object comes to: one that was built by another command is stale.
pub fn build_status(state: &BuildState) -> Status
    ensures { code_of result ≡ build_status state.now }
{
    match state {
        BuildState::CommandDiffers => Status::Stale,
        BuildState::Verdict(verdict) => verdict_status(verdict),
    }
}

/// What a reply comes to.
fn reply_status(reply: &Reply) -> Status
    ensures { code_of result ≡ reply_status reply.now }
{
    match reply {
        Reply::Verdict(verdict) => verdict_status(verdict),
        Reply::Refused(_) => Status::Refused,
        _ => Status::Done,
    }
}

/// A synchronisation that is done, name by name: `generation N`, a line `touch NAME` for each, and `unknown U`.
pub fn report_sync(alloc: Global, report: &Report) -> Result<Outcome, AllocError>
    ensures { IfOk result (λ o. (o.text.items ≡ report_lines report.now) × (code_of o.status ≡ 0) × (o.count ≡ None)) }
{
    let mut text = Vec::new(alloc);
    write_report(report, &mut text)?;
    Ok(Outcome::done(text))
}

/// `put back G touched N`, `began again G` or `no numbers`.
#[tactic(auto, unfolding(crate::specs::Replies::repair_line))]
fn write_repair(repaired: Repaired, text: &mut Vec<u8>) -> Result<(), AllocError>
    ensures { OnOk result (text.new.items ≡ text.old.items ++ repair_line repaired) }
{
    match repaired {
        Repaired::PutBack { generation, stamps } => {
            write_count(b"put back ", generation, text)?;
            write_count(b" touched ", stamps as u64, text)?;
            text.extend_from_slice(b"\n")
        }
        Repaired::BegunAgain { generation } => {
            write_count(b"began again ", generation, text)?;
            text.extend_from_slice(b"\n")
        }
        Repaired::Nothing => text.extend_from_slice(b"no numbers\n"),
    }
}

/// What a repair did, in one line.
pub fn report_repair(alloc: Global, repaired: Repaired) -> Result<Outcome, AllocError>
    ensures { IfOk result (λ o. (o.text.items ≡ repair_line repaired) × (code_of o.status ≡ 0) × (o.count ≡ None)) }
{
    let mut text = Vec::new(alloc);
    write_repair(repaired, &mut text)?;
    Ok(Outcome::done(text))
}

/// How many objects are marked, in one line: `marked N`.
#[tactic(auto, unfolding(crate::specs::Replies::marked_line))]
pub fn report_marked(alloc: Global, count: usize) -> Result<Outcome, AllocError>
    ensures { IfOk result (λ o. (o.text.items ≡ marked_line count) × (code_of o.status ≡ 0) × (o.count ≡ None)) }
{
    let mut text = Vec::new(alloc);
    write_count(b"marked ", count as u64, &mut text)?;
    text.extend_from_slice(b"\n")?;
    Ok(Outcome::done(text))
}

/// What was recorded of an object, in one line: `record TARGET generation N names M`.
pub fn report_recorded(
    alloc: Global,
    target: &[u8],
    recorded: &Recorded,
) -> Result<Outcome, AllocError>
    ensures { IfOk result (λ o. (o.text.items ≡ recorded_line target.now recorded.now) × (code_of o.status ≡ 0) × (o.count ≡ None)) }
{
    let mut text = Vec::new(alloc);
    write_recorded_line(target, recorded, &mut text)?;
    Ok(Outcome::done(text))
}

/// What was recorded of an object whose dependency file is by its rule now, in one line: `depfile TARGET generation N
/// names M`.
pub fn report_depfile(
    alloc: Global,
    target: &[u8],
    recorded: &Recorded,
) -> Result<Outcome, AllocError>
    ensures { IfOk result (λ o. (o.text.items ≡ depfile_line target.now recorded.now) × (code_of o.status ≡ 0) × (o.count ≡ None)) }
{
    let mut text = Vec::new(alloc);
    write_depfile_line(target, recorded, &mut text)?;
    Ok(Outcome::done(text))
}
