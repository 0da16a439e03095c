use crate::FORMS;
use crate::help::begins;
use std::alloc::{AllocError, Global};
use std::fmt;

/// Standard input, as a file, which is meant by `-`.
const INPUT: &str = "/dev/stdin";

/// Puts the name of standard input in place of each `-` behind the first word.
pub fn name_input(alloc: Global, words: &mut [String]) -> Result<(), AllocError> {
    for (place, word) in words.iter_mut().enumerate() {
        if place > 0 && word.as_str() == "-" {
            *word = String::from_str(alloc, INPUT)?;
        }
    }
    Ok(())
}

/// The words of a call, and the file that they name, where it is one of several.
#[derive(Clone, Copy, Debug)]
pub struct OneCall<'a> {
    pub words: &'a [String],
    pub file: Option<&'a str>,
}

/// A command and the files that it answers one by one.
#[derive(Clone, Copy, Debug)]
pub struct Several<'a> {
    pub command: &'a str,
    pub files: &'a [String],
}

/// These, where there are two or more, each a word that may name a file.
pub fn files_of(words: &[String]) -> Option<Several<'_>> {
    match words {
        [command, files @ ..] if files.len() >= 2 && answers_each(command.as_str()) => {
            let are_files = files.iter().all(|word| may_be_file(word.as_str()));
            let command = command.as_str();
            are_files.then_some(Several { command, files })
        }
        _ => None,
    }
}

impl<'a> Several<'a> {
    /// The words of the call that answers one of the files.
    pub fn call(&self, alloc: Global, file: &str) -> Result<Vec<String>, AllocError> {
        let mut words = Vec::new(alloc);
        words.push(String::from_str(alloc, self.command)?)?;
        words.push(String::from_str(alloc, file)?)?;
        Ok(words)
    }
}

fn answers_each(command: &str) -> bool {
    FORMS.iter().any(|form| {
        let row = form.row();
        row.each && begins(row.parts, command)
    })
}

fn may_be_file(word: &str) -> bool {
    !word.is_empty() && !word.starts_with("-")
}

/// The name of a file of several, as it is shown: with `?` for what does not print.
#[derive(Clone, Copy, Debug)]
pub struct FileName<'a>(pub &'a str);

impl<'a> fmt::Display for FileName<'a> {
    fn fmt<W: fmt::Write>(&self, f: &mut fmt::Formatter<W>) -> fmt::Result {
        for letter in self.0.chars() {
            f.write_char(match letter {
                ' '..='~' => letter,
                _ => '?',
            })?;
        }
        Ok(())
    }
}
