//! Which word of a command line is wrong, and why.

use crate::form::{Choice, Form, choice_of, form_of, model_form_of};

/// A word, and what is wrong with it: the sentence is `what` and then `why`.
#[derive(Clone, Copy)]
pub(crate) struct Wrong<'a> {
    pub(crate) word: &'a str,
    pub(crate) why: &'static str,
    pub(crate) what: &'static str,
}

fn fault<'a>(word: &'a str, why: &'static str) -> Wrong<'a> {
    Wrong {
        word,
        why,
        what: "",
    }
}

fn has_digits_alone(word: &str) -> bool {
    for byte in word.as_bytes() {
        if !byte.is_ascii_digit() {
            return false;
        }
    }
    true
}

/// Whether at most 20 digits spell a number from one to the other.
fn is_number(word: &str, least: u64, most: u64) -> bool {
    if 20 < word.len() || !has_digits_alone(word) {
        return false;
    }
    match word.parse::<u64>() {
        Ok(number) => least <= number && number <= most,
        Err(_) => false,
    }
}

fn is_one_of(word: &str, others: &[&str]) -> bool {
    for other in others {
        if word == *other {
            return true;
        }
    }
    false
}

/// What is wrong with an option's value.
fn wrong_value<'a>(choice: Choice, word: &'a str) -> Option<Wrong<'a>> {
    if is_number(word, 1, choice.most) || is_one_of(word, choice.words) {
        None
    } else {
        Some(fault(word, choice.says))
    }
}

/// What is wrong with a word that is no option.
fn wrong_place<'a>(place: &str, word: &'a str) -> Option<Wrong<'a>> {
    match place {
        "SEED" if !is_number(word, 0, u64::MAX) => Some(fault(
            word,
            "SEED is a number from 0 to 18,446,744,073,709,551,615",
        )),
        "NODES" if !is_number(word, 1, 10_000) => Some(fault(
            word,
            "NODES is a number from 1 to 10,000",
        )),
        _ => None,
    }
}

/// How far the words behind a command's name are read.
#[derive(Drop)]
struct Reading {
    /// What has still to stand there.
    files: &'static [&'static str],
    options: u16,
    /// The bits of the options that were given.
    given: u16,
    /// The option that the next word is the value of.
    open: Option<Choice>,
    /// Whether all words are files from here on.
    is_plain: bool,
}

impl Reading {
    fn file<'a>(&mut self, word: &'a str) -> Option<Wrong<'a>> {
        match self.files {
            [place, others @ ..] => {
                self.files = others;
                wrong_place(place, word)
            }
            [] => Some(fault(word, "the command takes no further file")),
        }
    }

    /// Takes the flag of an option, or says what is wrong with it.
    fn choice<'a>(&mut self, flag: &'a str) -> Result<Choice, Wrong<'a>> {
        let Some(choice) = choice_of(self.options, flag) else {
            return Err(fault(flag, "the command has no such option"));
        };
        if self.given & choice.bit != 0 {
            return Err(fault(flag, "the option is given twice"));
        }
        self.given |= choice.bit;
        Ok(choice)
    }

    fn option<'a>(&mut self, word: &'a str) -> Option<Wrong<'a>> {
        if let Some((flag, value)) = word.split_once('=') {
            return match self.choice(flag) {
                Ok(choice) => wrong_value(choice, value),
                Err(found) => Some(found),
            };
        }
        match self.choice(word) {
            Ok(choice) => {
                self.open = Some(choice);
                None
            }
            Err(found) => Some(found),
        }
    }

    /// Takes a word that is no option's value.
    fn fresh<'a>(&mut self, word: &'a str) -> Option<Wrong<'a>> {
        if word == "--" {
            self.is_plain = true;
            None
        } else if word.starts_with("--") {
            self.option(word)
        } else if word.starts_with("-") {
            Some(fault(
                word,
                "no word begins with one dash; a file of such a name stands behind `--`",
            ))
        } else {
            self.file(word)
        }
    }

    fn word<'a>(&mut self, word: &'a str) -> Option<Wrong<'a>> {
        if self.is_plain {
            return self.file(word);
        }
        match self.open.take() {
            Some(choice) if word.starts_with("--") => Some(fault(
                choice.flag,
                "its value is missing",
            )),
            Some(choice) => wrong_value(choice, word),
            None => self.fresh(word),
        }
    }

    /// What is missing at the end.
    fn missing<'a>(&self, command: &'a str) -> Option<Wrong<'a>> {
        match (self.open, self.files) {
            (Some(choice), _) => Some(fault(choice.flag, "its value is missing")),
            (None, [place, ..]) => Some(Wrong {
                word: command,
                why: " is missing behind it",
                what: place,
            }),
            (None, []) => None,
        }
    }
}

/// The first word behind a command's name that is wrong.
fn wrong_behind<'a>(command: &'a str, form: Form, words: &'a [String]) -> Option<Wrong<'a>> {
    let mut reading = Reading {
        files: form.files,
        options: form.options,
        given: 0,
        open: None,
        is_plain: false,
    };
    for word in words {
        let found = reading.word(word.as_str());
        if found.is_some() {
            return found;
        }
    }
    reading.missing(command)
}

/// The first word behind `model` that is wrong.
fn wrong_model<'a>(words: &'a [String]) -> Option<Wrong<'a>> {
    match words {
        [kind, rest @ ..] => match model_form_of(kind.as_str()) {
            Some(form) => wrong_behind(kind.as_str(), form, rest),
            None => Some(fault(
                kind.as_str(),
                "behind `model` stands mac, fib, click or acl",
            )),
        },
        [] => Some(fault("model", "behind it stands mac, fib, click or acl")),
    }
}

/// The first word of a command line that is wrong; None where there is none, or it asks for help.
pub(crate) fn wrong_word<'a>(words: &'a [String]) -> Option<Wrong<'a>> {
    let [name, rest @ ..] = words else {
        return None;
    };
    match name.as_str() {
        "--help" => None,
        "-h" => None,
        "model" => wrong_model(rest),
        name => match form_of(name) {
            Some(form) => wrong_behind(name, form, rest),
            None => Some(fault(name, "there is no such command")),
        },
    }
}
