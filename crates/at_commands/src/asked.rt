//! What the words after the program's name ask for.

ghost use Rattle.std.specs.Prelude.{◌≡◌, option_map, IfSome};
ghost use Rattle.at_commands.specs.Words.{IsWithinLimits, agree_wanted, asked_shown, form_wanted, further_wanted, make_wanted, wanted_of, words_of};

use crate::numbers::{Making, VALUES_MAX, VALUES_MIN, Values, making_of, values_of};
use crate::words::{Form, FormCommand, FurtherCommand, FurtherForm};

/// What is asked for: the files of a command, or its numbers.
#[derive(Drop)]
pub enum Asked<'a> {
    Files {
        command: FormCommand,
        form: Form<'a>,
    },
    Further {
        command: FurtherCommand,
        form: FurtherForm<'a>,
    },
    Make(Making),
    Agree(Values),
}

/// What the words after the name of a command ask for that reads a book and the files of the processes.
fn form_asked(command: FormCommand, words: &[String]) -> Option<Asked<'_>>
    ensures asked { option_map asked_shown result ≡ form_wanted command (words_of words.now) }
    ensures limits { IfSome result (λ asked. IsWithinLimits (asked_shown asked)) }
{
    let [book, files @ ..] = words else {
        return None;
    };
    let form = Form {
        book: book.as_str(),
        files,
    };
    Some(Asked::Files { command, form })
}

/// What the words after the name of a command ask for that reads one further file.
fn further_asked(command: FurtherCommand, words: &[String]) -> Option<Asked<'_>>
    ensures asked { option_map asked_shown result ≡ further_wanted command (words_of words.now) }
    ensures limits { IfSome result (λ asked. IsWithinLimits (asked_shown asked)) }
{
    let [book, further, files @ ..] = words else {
        return None;
    };
    let form = FurtherForm {
        book: book.as_str(),
        further: further.as_str(),
        files,
    };
    Some(Asked::Further { command, form })
}

/// What the words after `make` ask for.
fn make_asked(words: &[String]) -> Option<Asked<'_>>
    ensures asked { option_map asked_shown result ≡ make_wanted (words_of words.now) }
    ensures limits { IfSome result (λ asked. IsWithinLimits (asked_shown asked)) }
{
    let [first, processes, calls] = words else {
        return None;
    };
    let making = making_of(first.as_str(), processes.as_str(), calls.as_str())?;
    Some(Asked::Make(making))
}

/// What the words after `agree` ask for. It takes no memory.
fn agree_asked(words: &[String]) -> Option<Asked<'_>>
    ensures asked { option_map asked_shown result ≡ agree_wanted (words_of words.now) }
    ensures limits { IfSome result (λ asked. IsWithinLimits (asked_shown asked)) }
{
    if words.len() < VALUES_MIN || words.len() > VALUES_MAX {
        return None;
    }
    let values = values_of(words)?;
    Some(Asked::Agree(values))
}

/// What the words after the program's name ask for, if they have the form of a command. A word is never taken as an option.
pub fn asked_by(words: &[String]) -> Option<Asked<'_>>
    ensures asked { option_map asked_shown result ≡ wanted_of (words_of words.now) }
    ensures limits { IfSome result (λ asked. IsWithinLimits (asked_shown asked)) }
{
    let [command, words @ ..] = words else {
        return None;
    };
    match command.as_str() {
        "run" => form_asked(FormCommand::Run, words),
        "check" => form_asked(FormCommand::Check, words),
        "kinds" => form_asked(FormCommand::Kinds, words),
        "needs" => form_asked(FormCommand::Needs, words),
        "orders" => form_asked(FormCommand::Orders, words),
        "costs" => form_asked(FormCommand::Costs, words),
        "ledger" => form_asked(FormCommand::Ledger, words),
        "replay" => further_asked(FurtherCommand::Replay, words),
        "trace" => further_asked(FurtherCommand::Trace, words),
        "show" => further_asked(FurtherCommand::Show, words),
        "verify" => further_asked(FurtherCommand::Verify, words),
        "deliver" => further_asked(FurtherCommand::Deliver, words),
        "make" => make_asked(words),
        "agree" => agree_asked(words),
        _ => None,
    }
}
