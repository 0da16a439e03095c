ghost use Rattle.std.specs.Prelude.{◌≡◌, ◌≤◌, ◌<◌, ◌^◌, IfSome, map, length, position, string_bytes};
ghost use Rattle.std.specs.Option.{option_map};
ghost use Rattle.program_words.specs.Shapes.{shape_of, input_limit};
ghost use Rattle.pcitree.specs.Words.{names_file, fits, fitting, is_of, form_of, misfit, is_file, is_number, file_in, file_place, limit_by, rows_in, operation_in, read_in, write_in};
ghost use Rattle.pcitree.specs.Given.{number_in, number_of};

use command_runs::names_rounds;
use command_traces::{Rows, names_event, rows_of};
use judge_adverse::names_operation;
use program_words::{Called, FORMS, Form, Part};

/// Whether the word, behind another, is as the part has it.
fn fits(part: Part, before: &str, word: &str) -> bool
    ensures { result ≡ fits (shape_of part) before.now word.now }
{
    match part {
        Part::Word(text) => word == text,
        Part::File | Part::Log => names_file(word.as_bytes()),
        Part::Rounds => names_rounds(word.as_bytes()),
        Part::First => names_event(word.as_bytes()),
        Part::Last => rows_of(before.as_bytes(), word.as_bytes()).is_some(),
        Part::Operation(_) => names_operation(word.as_bytes()),
    }
}

/// Whether the word names the file.
fn is_file(part: Part) -> bool
    ensures { result ≡ is_file (shape_of part) }
{
    matches!(part, Part::File | Part::Log)
}

/// Whether the word is a number to be read.
fn is_number(part: Part) -> bool
    ensures { result ≡ is_number (shape_of part) }
{
    matches!(part, Part::Rounds)
}

fn names_file(word: &[u8]) -> bool
    ensures { result ≡ names_file word.now }
{
    match word {
        [] => false,
        [first, ..] => *first != b'-',
    }
}

/// How many words behind another, from the first on, are as the parts have them.
fn fitting(parts: &[Part], before: &str, words: &[String]) -> u32
    requires { length parts.now ≤ 4 }
    ensures count { result
        ≡ fitting (map shape_of parts.now) before.now (map string_bytes words.now) }
    ensures bound { result ≤ length parts.now }
{
    match parts {
        [] => 0,
        [part, parts @ ..] => match words {
            [word, words @ ..] if fits(*part, before, word.as_str()) => {
                1 + fitting(parts, word.as_str(), words)
            }
            _ => 0,
        },
    }
}

/// Whether the words behind another are as the parts have them.
fn is_of(parts: &[Part], before: &str, words: &[String]) -> bool
    ensures { result ≡ is_of (map shape_of parts.now) before.now (map string_bytes words.now) }
{
    match parts {
        [] => words.is_empty(),
        [part, parts @ ..] => match words {
            [] => false,
            [word, words @ ..] => {
                fits(*part, before, word.as_str()) && is_of(parts, word.as_str(), words)
            }
        },
    }
}

/// The number among words of this form, if the form has one.
pub(crate) fn number_of<'a>(form: Form, words: &Called<'a>) -> Option<&'a str>
    ensures value { option_map (λ number. number.now) result ≡ number_of form words.now }
    ensures small { input_limit form < 2 ^ 31 }
{
    number_in(form.row().parts, words.words())
}

/// The number among the words, where one of the parts is a number.
fn number_in<'a>(parts: &[Part], words: &'a [String]) -> Option<&'a str>
    ensures { option_map (λ number. number.now) result
        ≡ number_in (map shape_of parts.now) (map string_bytes words.now) }
{
    match parts {
        [] => None,
        [part, parts @ ..] => match words {
            [] => None,
            [word, _words @ ..] if is_number(*part) => Some(word.as_str()),
            [_word, words @ ..] => number_in(parts, words),
        },
    }
}

/// The events that the words ask for, in words of the form `draw FILE FIRST LAST`.
pub(crate) fn rows_in(words: &Called) -> Option<Rows>
    ensures { result ≡ rows_in words.now }
{
    match words.words() {
        [_draw, _file, first, last] => rows_of(first.as_bytes(), last.as_bytes()),
        _ => None,
    }
}

/// The operation that the words name, in words of the form `draw FILE OPERATION`.
pub(crate) fn operation_in<'a>(words: &Called<'a>) -> &'a [u8]
    ensures { result.now ≡ operation_in words.now }
{
    match words.words() {
        [_draw, _file, operation] => operation.as_bytes(),
        _ => &[],
    }
}

/// The operations that the words name, in words of the form `adverse FILE READ WRITE`.
pub(crate) fn operations_in<'a>(words: &Called<'a>) -> (&'a [u8], &'a [u8])
    ensures read { result.0.now ≡ read_in words.now }
    ensures write { result.1.now ≡ write_in words.now }
{
    match words.words() {
        [_adverse, _file, read, write] => (read.as_bytes(), write.as_bytes()),
        _ => (&[], &[]),
    }
}

/// The form that the words are of.
pub fn form_of(words: &Called) -> Option<Form>
    ensures { result ≡ form_of words.now }
{
    let words = words.words();
    FORMS
        .iter()
        .copied()
        .find(|form| is_of(form.row().parts, "", words))
}

/// The place, from 0, of the first word that fits no form, or the number of words where one is
/// missing.
pub(crate) fn misfit(words: &Called) -> u32
    ensures { result ≡ misfit words.now }
{
    let words = words.words();
    FORMS.iter().fold(
        0,
        |longest: u32, form| longest.max(fitting(form.row().parts, "", words)),
    )
}

/// The place, from 0, of the word that names the file to be read. None exactly where the words are
/// of no form, or of one that reads no file.
pub fn file_word(words: &Called) -> Option<u32>
    ensures { result ≡ file_place words.now }
{
    let form = form_of(words)?;
    let place = file_in(form.row().parts)?;
    Some(place as u32)
}

/// The place, from 0, of the word that names the file among the parts of a form.
#[tactic(auto, using(crate::proofs::FileLemmas::position_of_file))]
fn file_in(parts: &[Part]) -> Option<usize>
    ensures first { result ≡ file_in (map shape_of parts.now) }
    ensures within { IfSome result (λ place. place < length parts.now) }
{
    first_file(parts)
}

fn first_file(parts: &[Part]) -> Option<usize>
    ensures first { result ≡ position (λ part. is_file (shape_of part)) parts.now }
    ensures within { IfSome result (λ place. place < length parts.now) }
{
    parts.iter().position(|part| is_file(*part))
}

/// How many bytes the input may have that the words ask for. 0 where they are of no form.
pub fn input_limit(words: &Called) -> usize
    ensures value { result ≡ limit_by (form_of words.now) }
    ensures small { result < 2 ^ 31 }
{
    match form_of(words) {
        None => 0,
        Some(form) => form.row().limit,
    }
}
