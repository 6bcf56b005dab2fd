//! What a command prints: its text to the output, and refusals and counts to standard error. All that is put there is seen out
//! at once, so that a failure is reported by the command that met it.
ghost use Rattle.std.specs.Prelude.{◌≡◌, ◌⊎◌, ◌++◌, List, [], ℕ, IsTrue, Ok, Some, codes, false, option_map};
ghost use Rattle.ks_streams.specs.Streams.{Breaks, Prints, PrintsOrBreaks, state_of};
ghost use Rattle.ks_tree.specs.Frames.{Reads};
ghost use Rattle.ks_requests.specs.Endings.{Complains, CountGoes, Printed};
ghost use Rattle.ks_errors.specs.Errors.{hint, seen};
ghost use Rattle.ks_requests.specs.Faults.{complaint, hint_of};
ghost use Rattle.ks_requests.specs.Sites.{IsSiteLine, shown, site_line};
ghost use Rattle.ks_requests.specs.Replies.{count_line};
ghost use Rattle.ks_requests.specs.Views.{seen_site};

use crate::faults::{FaultPlace, refusal_fault};
use crate::inputs::borrowed;
use crate::refusal::Refusal;
use crate::sites::{Part, Site, excerpt_at};
use crate::status::{Count, Outcome, exit_status};
use itoa::Buffer;
use ks_errors::{DEVICE, KnownError};
use ks_streams::{Stream, Writer};
use ks_tree::Tree;
use std::alloc::Global;

/// Prints the line of an error, by its number and name, with its place, and returns whether all of it went out.
fn print_fault_line<E: Writer>(
    err: &mut Stream<E>,
    number: &[u8],
    name: &[u8],
    label: &[u8],
    place: &[u8],
) -> bool
    ensures whole { IsTrue result → Prints (codes "confstamp: " ++ (number.now ++ codes " " ++ name.now ++ label.now ++ place.now) ++ codes "\n")
        (state_of E.Writer err.old) (state_of E.Writer err.new) }
    ensures broken { result ≡ false → Breaks (codes "confstamp: " ++ (number.now ++ codes " " ++ name.now ++ label.now ++ place.now) ++ codes "\n")
        (state_of E.Writer err.old) (state_of E.Writer err.new) }
{
    err.print(&[b"confstamp: ", number, b" ", name, label, place, b"\n"])
}

/// Prints the line of a refusal, and returns whether all of it went out.
#[tactic(auto, unfolding(crate::specs::Faults::complaint))]
fn print_complaint<E: Writer>(err: &mut Stream<E>, refusal: &Refusal) -> bool
    ensures whole { IsTrue result → Prints (complaint refusal.now) (state_of E.Writer err.old) (state_of E.Writer err.new) }
    ensures broken { result ≡ false → Breaks (complaint refusal.now) (state_of E.Writer err.old) (state_of E.Writer err.new) }
{
    let fault = refusal_fault(refusal);
    let number = fault.error.number.as_bytes();
    let name = fault.error.name.as_bytes();
    let label = fault.label.as_bytes();
    match fault.place {
        FaultPlace::Nowhere => print_fault_line(err, number, name, label, b""),
        FaultPlace::Numbered(at) => {
            print_fault_line(
                err,
                number,
                name,
                label,
                Buffer::new().format(at).as_bytes(),
            )
        }
        FaultPlace::Named(bytes) => print_fault_line(err, number, name, label, bytes),
    }
}

/// Prints what to do about an error, as well as that goes.
#[tactic(auto, unfolding(ks_errors::specs::Errors::hint))]
fn print_advice<E: Writer>(err: &mut Stream<E>, error: &KnownError)
    ensures { PrintsOrBreaks (hint (seen error.now)) (state_of E.Writer err.old) (state_of E.Writer err.new) }
{
    let advice = error.advice.as_bytes();
    let number = error.number.as_bytes();
    let _ = err.print(&[b"hint: ", advice, b" (confstamp explain ", number, b")\n"]);
}

/// Prints what to do about a refusal. The program itself prints that of a failure of the system, below what the system said.
#[tactic(auto, unfolding(crate::specs::Faults::hint_of))]
fn print_hint<E: Writer>(err: &mut Stream<E>, refusal: &Refusal)
    ensures { ((hint_of refusal.now ≡ []) × (state_of E.Writer err.new ≡ state_of E.Writer err.old))
        ⊎ PrintsOrBreaks (hint_of refusal.now) (state_of E.Writer err.old) (state_of E.Writer err.new) }
{
    let error = refusal_fault(refusal).error;
    if error.number != DEVICE.0 {
        print_advice(err, &error);
    }
}

/// Prints the line of a site: its path, the part, and what stands there. Tells whether all of it went out.
fn print_site_line<E: Writer>(
    err: &mut Stream<E>,
    path: &[u8],
    label: &[u8],
    number: &[u8],
    text: Option<&[u8]>,
) -> bool
    ensures whole { IsTrue result → Prints (codes "  " ++ path.now ++ (label.now ++ number.now) ++ shown (option_map (λ t. t.now) text.entry) ++ codes "\n")
        (state_of E.Writer err.old) (state_of E.Writer err.new) }
    ensures broken { result ≡ false → Breaks (codes "  " ++ path.now ++ (label.now ++ number.now) ++ shown (option_map (λ t. t.now) text.entry) ++ codes "\n")
        (state_of E.Writer err.old) (state_of E.Writer err.new) }
{
    match text {
        Some(text) => err.print(&[b"  ", path, label, number, b": ", text, b"\n"]),
        None => err.print(&[b"  ", path, label, number, b"\n"]),
    }
}

/// Prints where a refusal points, and returns whether all of it went out.
#[tactic(auto, unfolding(crate::specs::Sites::site_line, crate::specs::Sites::part_label, crate::specs::Faults::counted))]
fn print_site<E: Writer>(err: &mut Stream<E>, site: &Site<'_>, text: Option<&[u8]>) -> bool
    ensures whole { IsTrue result → Prints (site_line (seen_site site.now) (option_map (λ t. t.now) text.entry)) (state_of E.Writer err.old) (state_of E.Writer err.new) }
    ensures broken { result ≡ false → Breaks (site_line (seen_site site.now) (option_map (λ t. t.now) text.entry)) (state_of E.Writer err.old) (state_of E.Writer err.new) }
{
    let path = site.path;
    match site.part {
        Part::Whole => print_site_line(err, path, b"", b"", text),
        Part::Line(number) => {
            print_site_line(
                err,
                path,
                b":",
                Buffer::new().format(number).as_bytes(),
                text,
            )
        }
        Part::Token(number) => {
            print_site_line(
                err,
                path,
                b": token ",
                Buffer::new().format(number).as_bytes(),
                text,
            )
        }
    }
}

/// Prints `confstamp: ` and why a command was refused, and what to do, as well as that goes. The status is 2 also where that fails.
pub fn refuse<E: Writer>(err: &mut Stream<E>, error: &Refusal) -> u8
    ensures status { result ≡ 2 }
    ensures reported { Complains error.now [] (state_of E.Writer err.old) (state_of E.Writer err.new) }
{
    if print_complaint(err, error) {
        print_hint(err, error);
    }
    2
}

/// Prints where a refusal points, with what stands there, where the file can be read and has such a part. Tells whether all of it
/// went out.
fn print_found<T: Tree, E: Writer>(
    alloc: Global,
    tree: &mut T,
    site: &Site<'_>,
    err: &mut Stream<E>,
) -> bool
    ensures reads { Reads T.Tree tree.old tree.new ⊥ }
    ensures line { (line : List ℕ) × IsSiteLine T.is_honest (T.files tree.old) (Some (seen_site site.now)) line
        × (IsTrue result → Prints line (state_of E.Writer err.old) (state_of E.Writer err.new))
        × (result ≡ false → Breaks line (state_of E.Writer err.old) (state_of E.Writer err.new)) }
{
    match excerpt_at(alloc, tree, site) {
        Ok(text) => print_site(err, site, borrowed(&text)),
        Err(_) => print_site(err, site, None),
    }
}

/// Prints why a command was refused, after it which file that is about and what stands there, and what to do. The file is read
/// again once the refusal is printed. The status is 2 also where that fails.
pub fn refuse_at<T: Tree, E: Writer>(
    alloc: Global,
    tree: &mut T,
    site: &Site<'_>,
    refusal: &Refusal,
    err: &mut Stream<E>,
) -> u8
    ensures status { result ≡ 2 }
    ensures reads { Reads T.Tree tree.old tree.new ⊥ }
    ensures reported { (line : List ℕ) × IsSiteLine T.is_honest (T.files tree.old) (Some (seen_site site.now)) line
        × Complains refusal.now line (state_of E.Writer err.old) (state_of E.Writer err.new) }
{
    if print_complaint(err, refusal) {
        if print_found(alloc, tree, site, err) {
            print_hint(err, refusal);
        }
    }
    2
}

/// Prints the two numbers of a count, and what is counted.
fn print_count_line<E: Writer>(err: &mut Stream<E>, some: &[u8], all: &[u8], kind: &[u8])
    ensures { PrintsOrBreaks (some.now ++ (codes " of " ++ all.now) ++ kind.now) (state_of E.Writer err.old) (state_of E.Writer err.new) }
{
    let _ = err.print(&[some, b" of ", all, kind]);
}

/// Prints how many of all objects are of a kind, or which names are unknown, where that is printed.
#[tactic(auto, unfolding(crate::specs::Replies::count_line, crate::specs::Faults::counted))]
fn print_count<E: Writer>(err: &mut Stream<E>, count: &Option<Count>)
    ensures { CountGoes count.now (state_of E.Writer err.old) (state_of E.Writer err.new) }
{
    match count {
        Some(Count::Stale { stale, all }) => print_count_line(
            err,
            Buffer::new().format(*stale as u64).as_bytes(),
            Buffer::new().format(*all as u64).as_bytes(),
            b" stale\n",
        ),
        Some(Count::Unknown(lines)) => {
            let _ = err.print(&[lines]);
        }
        Some(Count::Users { users, all }) => print_count_line(
            err,
            Buffer::new().format(*users as u64).as_bytes(),
            Buffer::new().format(*all as u64).as_bytes(),
            b" objects\n",
        ),
        None => {}
    }
}

/// Prints what is to be printed of a command, and answers the exit status. The text goes to `out`, which is seen out, and a
/// count to `err` as well as that goes. Where the output fails that is reported as 51 Output, with the status 2.
pub fn print<W: Writer, E: Writer>(
    outcome: &Outcome,
    out: &mut Stream<W>,
    err: &mut Stream<E>,
) -> u8
    ensures { Printed [] (Ok outcome.now) (state_of W.Writer out.old) (state_of W.Writer out.new) (state_of E.Writer err.old) (state_of E.Writer err.new) result }
{
    if out.print(&[&outcome.text]) {
        print_count(err, &outcome.count);
        exit_status(outcome.status)
    } else {
        refuse(err, &Refusal::Output)
    }
}
