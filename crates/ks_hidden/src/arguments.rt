//! Which arguments of a compile are known: they bring no file that the compiler doesn't list, and into the object nothing of the header but
//! what its sources name.
//!
//! In doubt an argument isn't known.
ghost use Rattle.std.specs.Prelude.{◌≡◌, Some, IfOk, codes, map, option_map};
ghost use Rattle.ks_hidden.specs.Arguments.{after_argument, after_front, after_word, argument_if, begins_with_one, ends_with_one, has, has_known_front, has_macro, has_one, has_refused_front, has_tool_value, is_known_file, is_known_flag, is_known_inner, is_known_inside, is_known_language, is_known_machine, is_known_of_text, is_known_option, is_marked, is_one_of, is_other_option, is_plain_flag, is_plain_option, is_plain_value, is_tool, is_tool_option, keeps_macros, names_file, reads_file, takes_inner, takes_value, unknown_argument, unknown_from};
ghost use Rattle.ks_hidden.specs.declared.arguments.Expected.TheVariants.{Front, Text};
ghost use Rattle.ks_hidden.specs.Words.{texts};

use crate::words::{behind, words};
use std::alloc::{AllocError, Global};

/// What the next word of a command is.
#[derive(Clone, Copy, Debug)]
enum Expected {
    /// The compiler, or what stands in front of it.
    Front,
    /// The value of an option of `env` or `nice`.
    FrontValue,
    Argument,
    /// The value of an option.
    Value,
    /// The language behind `-x`.
    Language,
    /// An option of a part of the compiler, behind `-Xclang` and its like.
    Inner,
    /// A word of a command that makes a text, and is no compile.
    Text,
}

/// Whether a word is one of these.
fn is_one_of(texts: &[&[u8]], word: &[u8]) -> bool
    ensures { result ≡ is_one_of (map (λ t. t.now) texts.now) word.now }
{
    for text in texts {
        if word == *text {
            return true;
        }
    }
    false
}

/// Whether a word begins with one of these.
fn begins_with_one(texts: &[&[u8]], word: &[u8]) -> bool
    ensures { result ≡ begins_with_one (map (λ t. t.now) texts.now) word.now }
{
    for text in texts {
        if word.starts_with(*text) {
            return true;
        }
    }
    false
}

/// Whether a word ends with one of these.
pub(crate) fn ends_with_one(texts: &[&[u8]], word: &[u8]) -> bool
    ensures { result ≡ ends_with_one (map (λ t. t.now) texts.now) word.now }
{
    for text in texts {
        if word.ends_with(*text) {
            return true;
        }
    }
    false
}

/// Whether a part stands anywhere in a word.
fn has(word: &[u8], part: &[u8]) -> bool
    ensures { result ≡ has word.now part.now }
{
    let mut rest = word;
    while let Some((_, after)) = rest.split_first() {
        if rest.starts_with(part) {
            return true;
        }
        rest = after;
    }
    false
}

/// Whether one of these stands anywhere in a word.
fn has_one(texts: &[&[u8]], word: &[u8]) -> bool
    ensures { result ≡ has_one (map (λ t. t.now) texts.now) word.now }
{
    for text in texts {
        if has(word, *text) {
            return true;
        }
    }
    false
}

/// Whether a word is a program that runs the compiler.
#[tactic(auto, unfolding(crate::specs::Arguments::is_tool))]
fn is_tool(word: &[u8]) -> bool
    ensures { result ≡ is_tool word.now }
{
    is_one_of(&[b"env", b"nice", b"ccache", b"distcc"], word)
        || ends_with_one(&[b"/env", b"/nice", b"/ccache", b"/distcc"], word)
}

/// Whether a value follows this option of such a program.
#[tactic(auto, unfolding(crate::specs::Arguments::has_tool_value))]
fn has_tool_value(word: &[u8]) -> bool
    ensures { result ≡ has_tool_value word.now }
{
    is_one_of(&[b"-u", b"-n", b"-C"], word)
}

/// Whether a word is another known option of such a program.
#[tactic(auto, unfolding(crate::specs::Arguments::is_tool_option))]
fn is_tool_option(word: &[u8]) -> bool
    ensures { result ≡ is_tool_option word.now }
{
    begins_with_one(&[b"-i", b"--unset=", b"--adjustment="], word)
}

/// Whether a word in front is an option that isn't known, or a variable that a compiler or a cache goes by.
#[tactic(auto, unfolding(crate::specs::Arguments::is_other_option))]
fn is_other_option(word: &[u8]) -> bool
    ensures { result ≡ is_other_option word.now }
{
    begins_with_one(&[b"-", b"CCACHE_", b"GCC_", b"CCC_"], word) || has(word, b"PATH=")
}

/// What is expected behind a word in front of the compiler, or behind the compiler.
#[tactic(auto, unfolding(crate::specs::Arguments::after_front))]
fn after_front(word: &[u8]) -> Option<Expected>
    ensures { result ≡ after_front word.now }
{
    if is_tool(word) || is_tool_option(word) {
        return Some(Expected::Front);
    }
    if has_tool_value(word) {
        return Some(Expected::FrontValue);
    }
    if is_other_option(word) {
        return None;
    }
    if has(word, b"=") {
        return Some(Expected::Front);
    }
    Some(Expected::Argument)
}

/// Whether a value follows an option, which the compiler takes as it stands.
#[tactic(auto, unfolding(crate::specs::Arguments::takes_value))]
fn takes_value(word: &[u8]) -> bool
    ensures { result ≡ takes_value word.now }
{
    is_one_of(
        &[
            b"-D",
            b"-I",
            b"-U",
            b"-o",
            b"-MF",
            b"-MQ",
            b"-MT",
            b"-include",
            b"-imacros",
            b"-isystem",
            b"-iquote",
            b"-idirafter",
            b"-isysroot",
            b"-target",
            b"-arch",
            b"--param",
        ],
        word,
    )
}

/// Whether an option of a part of the compiler follows.
#[tactic(auto, unfolding(crate::specs::Arguments::takes_inner))]
fn takes_inner(word: &[u8]) -> bool
    ensures { result ≡ takes_inner word.now }
{
    begins_with_one(&[b"-Xa", b"-Xc", b"-Xp"], word) || word == b"-mllvm".as_slice()
}

/// Whether an option says all itself.
#[tactic(auto, unfolding(crate::specs::Arguments::is_plain_option))]
fn is_plain_option(word: &[u8]) -> bool
    ensures { result ≡ is_plain_option word.now }
{
    is_one_of(
        &[
            b"-c",
            b"-MD",
            b"-MMD",
            b"-MP",
            b"-w",
            b"-s",
            b"-p",
            b"-P",
            b"-C",
            b"-CC",
            b"-v",
            b"-pg",
            b"-pipe",
            b"-pthread",
            b"-ansi",
            b"-undef",
            b"-trigraphs",
            b"-rdynamic",
            b"--coverage",
            b"-pie",
            b"-no-pie",
            b"-nodefaultlibs",
            b"-nostartfiles",
            b"-nolibc",
            b"-no-canonical-prefixes",
            b"-integrated-as",
            b"-no-integrated-as",
            b"-Qunused-arguments",
            b"-EB",
            b"-EL",
        ],
        word,
    )
}

/// Whether a word begins as an option that is known with any value.
#[tactic(auto, unfolding(crate::specs::Arguments::has_known_front))]
fn has_known_front(word: &[u8]) -> bool
    ensures { result ≡ has_known_front word.now }
{
    begins_with_one(
        &[
            b"-D",
            b"-U",
            b"-I",
            b"-O",
            b"-g",
            b"-W",
            b"-o",
            b"-MF",
            b"-MQ",
            b"-MT",
            b"-isystem",
            b"-iquote",
            b"-idirafter",
            b"-imacros",
            b"-include",
            b"-pedantic",
            b"-l",
            b"-L",
            b"-nostd",
            b"-static",
            b"-shared",
            b"-stdlib=",
            b"-rtlib=",
            b"--rtlib=",
            b"-unwindlib=",
            b"--unwindlib=",
            b"-std=",
            b"--std=",
            b"--param=",
            b"--sysroot=",
            b"--target=",
            b"--gcc-toolchain=",
        ],
        word,
    )
}

/// Whether it is none of these all the same.
#[tactic(auto, unfolding(crate::specs::Arguments::has_refused_front))]
fn has_refused_front(word: &[u8]) -> bool
    ensures { result ≡ has_refused_front word.now }
{
    begins_with_one(
        &[
            b"-I=",
            b"-I$",
            b"-isystem=",
            b"-iquote=",
            b"-idirafter=",
            b"-include-pch",
            b"-Wa,",
            b"-Wp,",
        ],
        word,
    )
}

/// Whether all macros come into the object or the text, or the line at which the header defines one.
#[tactic(auto, unfolding(crate::specs::Arguments::keeps_macros))]
fn keeps_macros(word: &[u8]) -> bool
    ensures { result ≡ keeps_macros word.now }
{
    begins_with_one(
        &[
            b"-g3",
            b"-ggdb3",
            b"-gstabs3",
            b"-fcoverage-",
            b"-fdebug-macro",
        ],
        word,
    ) && !begins_with_one(
        &[b"-fcoverage-prefix-map=", b"-fcoverage-compilation-dir="],
        word,
    )
}

/// Whether nothing follows the value of an option, and no file gives it.
fn is_plain_value(value: Option<&[u8]>) -> bool
    ensures { result ≡ is_plain_value (option_map (λ v. v.now) value.entry) }
{
    match value {
        Some(value) => !has_one(&[b",", b"@"], value),
        None => false,
    }
}

/// Whether it is a known option for the preprocessor or the assembler.
#[tactic(auto, unfolding(crate::specs::Arguments::is_known_inside))]
fn is_known_inside(word: &[u8]) -> bool
    ensures { result ≡ is_known_inside word.now }
{
    is_plain_value(behind(b"-Wp,-MD,", word))
        || is_plain_value(behind(b"-Wp,-MMD,", word))
        || is_plain_value(behind(b"-Wp,-D_", word))
        || is_plain_value(behind(b"-Wp,-U", word))
        || (begins_with_one(
            &[b"-Wa,--", b"-Wa,-W", b"-Wa,-m", b"-Wa,-M", b"-Wa,-n"],
            word,
        ) && is_plain_value(behind(b"-Wa,", word))
            && !has(word, b"gstabs"))
}

/// Whether it says how code is made, and nothing is read at what it may name.
#[tactic(auto, unfolding(crate::specs::Arguments::is_plain_flag))]
fn is_plain_flag(word: &[u8]) -> bool
    ensures { result ≡ is_plain_flag word.now }
{
    begins_with_one(
        &[
            b"-fno-",
            b"-fuse-",
            b"-fcoverage-compilation-dir=",
            b"-fcrash-diagnostics-dir=",
            b"-fdebug-compilation-dir=",
            b"-ffile-compilation-dir=",
            b"-finput-charset=UTF-8",
            b"-finput-charset=utf-8",
            b"-fprofile-dir=",
            b"-fprofile-generate",
            b"-frandom-seed=",
        ],
        word,
    ) || has(word, b"-prefix-map=")
}

/// Whether a flag may have a file read, or the sources otherwise.
#[tactic(auto, unfolding(crate::specs::Arguments::reads_file))]
fn reads_file(word: &[u8]) -> bool
    ensures { result ≡ reads_file word.now }
{
    begins_with_one(
        &[
            b"-fauto-profile",
            b"-fbasic-block-sections=",
            b"-fbranch-",
            b"-fembed-offload-",
            b"-finput-charset",
            b"-fmodule",
            b"-fopenmp-host-ir-",
            b"-fprebuilt-module",
            b"-fpreprocessed",
            b"-fprofile-remapping-",
            b"-frandomize-layout-seed-file",
            b"-fthinlto-index",
            b"-fxray-",
        ],
        word,
    )
}

/// Whether a flag may name a file that is read.
#[tactic(auto, unfolding(crate::specs::Arguments::names_file))]
fn names_file(word: &[u8]) -> bool
    ensures { result ≡ names_file word.now }
{
    has_one(
        &[
            b"profile-use",
            b"instr-use",
            b"sample-use",
            b"ment-use",
            b"plugin",
            b"list",
            b"/",
            b"@",
        ],
        word,
    )
}

/// Whether it says how code is made, and has no file read.
#[tactic(auto, unfolding(crate::specs::Arguments::is_known_flag))]
fn is_known_flag(word: &[u8]) -> bool
    ensures { result ≡ is_known_flag word.now }
{
    word.starts_with(b"-f")
        && !keeps_macros(word)
        && (is_plain_flag(word) || !(reads_file(word) || names_file(word)))
}

/// Whether it says for which machine, and names no file.
#[tactic(auto, unfolding(crate::specs::Arguments::is_known_machine))]
fn is_known_machine(word: &[u8]) -> bool
    ensures { result ≡ is_known_machine word.now }
{
    word.starts_with(b"-m") && !has_one(&[b"/", b"@", b"llvm"], word)
}

/// Whether it says the language, and isn't that of a header.
#[tactic(auto, unfolding(crate::specs::Arguments::is_known_language))]
fn is_known_language(word: &[u8]) -> bool
    ensures { result ≡ is_known_language word.now }
{
    word.starts_with(b"-x") && !word.ends_with(b"-header")
}

/// Whether an option is known, which takes no other word.
#[tactic(auto, unfolding(crate::specs::Arguments::is_known_option))]
fn is_known_option(word: &[u8]) -> bool
    ensures { result ≡ is_known_option word.now }
{
    is_plain_option(word)
        || (has_known_front(word) && !has_refused_front(word) && !keeps_macros(word))
        || is_known_inside(word)
        || is_known_flag(word)
        || is_known_machine(word)
        || is_known_language(word)
}

/// Whether a word is a source, an object or a library.
#[tactic(auto, unfolding(crate::specs::Arguments::is_known_file))]
fn is_known_file(word: &[u8]) -> bool
    ensures { result ≡ is_known_file word.now }
{
    ends_with_one(
        &[
            b".c", b".C", b".i", b".s", b".S", b".m", b".M", b".cc", b".cpp", b".cxx", b".c++",
            b".cp", b".ii", b".sx", b".mm", b".o", b".a", b".so",
        ],
        word,
    ) && !begins_with_one(&[b"@", b"-", b"/dev/std", b"/dev/fd/", b"/proc/"], word)
}

/// What is expected behind an argument.
#[tactic(auto, unfolding(crate::specs::Arguments::after_argument))]
fn after_argument(word: &[u8]) -> Option<Expected>
    ensures { result ≡ after_argument word.now }
{
    if takes_value(word) {
        return Some(Expected::Value);
    }
    if word == b"-x".as_slice() {
        return Some(Expected::Language);
    }
    if takes_inner(word) {
        return Some(Expected::Inner);
    }
    if is_known_option(word) || is_known_file(word) {
        return Some(Expected::Argument);
    }
    None
}

/// Whether an option of a part of the compiler is known.
#[tactic(auto, unfolding(crate::specs::Arguments::is_known_inner))]
fn is_known_inner(word: &[u8]) -> bool
    ensures { result ≡ is_known_inner word.now }
{
    is_known_flag(word)
        || is_known_machine(word)
        || (begins_with_one(
            &[
                b"-D",
                b"-U",
                b"-W",
                b"-O",
                b"-disable-",
                b"-target-",
                b"+",
                b"--32",
                b"--64",
                b"--compress",
                b"--fatal-warnings",
                b"--no",
                b"--warn",
            ],
            word,
        ) && !has_one(&[b"/", b"@", b"=", b".", b",", b"gstabs"], word))
}

/// Whether a word has no list of macros made, and no words read from a file.
#[tactic(auto, unfolding(crate::specs::Arguments::is_known_of_text))]
fn is_known_of_text(word: &[u8]) -> bool
    ensures { result ≡ is_known_of_text word.now }
{
    !keeps_macros(word)
        && !begins_with_one(
            &[
                b"-dD",
                b"-dI",
                b"-dM",
                b"-dN",
                b"-dU",
                b"-fdirectives-only",
                b"@",
            ],
            word,
        )
}

/// An argument is expected where the word was known.
fn argument_if(known: bool) -> Option<Expected>
    ensures { result ≡ argument_if known }
{
    if known {
        Some(Expected::Argument)
    } else {
        None
    }
}

impl Expected {
    /// What is expected behind a word, where that is known.
    fn after(self, word: &[u8]) -> Option<Expected>
        ensures { result ≡ after_word self word.now }
    {
        match self {
            Expected::Front => after_front(word),
            Expected::FrontValue => Some(Expected::Front),
            Expected::Argument => after_argument(word),
            Expected::Value => argument_if(!begins_with_one(&[b"@", b"=", b"$"], word)),
            Expected::Language => {
                argument_if(!word.ends_with(b"-header") && !word.starts_with(b"@"))
            }
            Expected::Inner => argument_if(is_known_inner(word)),
            Expected::Text => {
                if is_known_of_text(word) {
                    Some(Expected::Text)
                } else {
                    None
                }
            }
        }
    }
}

/// Whether one of these words is that one.
fn are_compile(words: &[Vec<u8>]) -> bool
    ensures { result ≡ is_one_of (texts words.now) (codes "-c") }
{
    for word in words {
        if word.as_slice() == b"-c".as_slice() {
            return true;
        }
    }
    false
}

/// Whether a word has a macro that is of the time of a compile, or looks for a file.
#[tactic(auto, unfolding(crate::specs::Arguments::has_macro))]
fn has_macro(word: &[u8]) -> bool
    ensures { result ≡ has_macro word.now }
{
    has_one(
        &[
            b"__has_include",
            b"__has_embed",
            b"__DATE__",
            b"__TIME__",
            b"__TIMESTAMP__",
        ],
        word,
    )
}

/// The same. Most words have no two underscores side by side, and are passed at once.
fn is_marked(word: &[u8]) -> bool
    ensures { result ≡ is_marked word.now }
{
    has(word, b"__") && has_macro(word)
}

/// The number of the first word that isn't known, from 1, where this is expected of the first.
fn first_unknown(first: Expected, words: &[Vec<u8>]) -> Option<u64>
    ensures { result ≡ unknown_from 0 (Some first) (texts words.now) }
{
    let mut expected = first;
    let mut number: u64 = 0;
    for word in words {
        number += 1;
        if is_marked(word) {
            return Some(number);
        }
        match expected.after(word) {
            Some(next) => expected = next,
            None => return Some(number),
        }
    }
    None
}

/// The number of the first word of a command that isn't known, from 1. One without `-c` is no compile, but makes a text.
#[tactic(auto, unfolding(crate::specs::Arguments::unknown_argument))]
pub fn unknown_argument(alloc: Global, command: &[u8]) -> Result<Option<u64>, AllocError>
    ensures { IfOk result (λ n. n ≡ unknown_argument command.now) }
{
    let words = words(alloc, command)?;
    let first = if are_compile(&words) {
        Expected::Front
    } else {
        Expected::Text
    };
    Ok(first_unknown(first, &words))
}
