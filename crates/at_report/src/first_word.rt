//! The process that a line of the journal is of: its name is the line's first word.

ghost use Rattle.std.specs.Prelude.{◌≡◌, ℕ, ◌<◌, ◌↔◌, IfSome, IsTrue, Some};
ghost use Rattle.at_report.specs.Prelude.{AreNamesOf, process_name};
ghost use Rattle.at_report.specs.Lines.{IsFirstWord, IsWord};

use at_files::Names;
use at_ledger::Book;

/// Whether the text begins with the word and a space.
fn begins_with(text: &[u8], word: &[u8]) -> bool
    ensures { IsTrue result ↔ IsFirstWord word.now text.now }
{
    let Some(rest) = text.strip_prefix(word) else {
        return false;
    };
    !rest.is_empty() && rest[0] == b' '
}

/// The process whose name and a space the text begins with, as a line of the journal does. `names` are the book's.
pub fn process_of(book: &Book, names: &Names, text: &[u8]) -> Option<u32>
    requires { AreNamesOf book.now names.now }
    ensures within { IfSome result (λ p. p < book.now.processes) }
    ensures exact { (p : ℕ) → p < book.now.processes → (result ≡ Some p)
        ↔ IsFirstWord (process_name names.now p) text.now }
    ensures words { (p : ℕ) → p < book.now.processes → IsWord (process_name names.now p) }
{
    let _accounts = book.accounts();
    for process in 0..book.processes() {
        if begins_with(text, names.process(process)) {
            return Some(process);
        }
    }
    None
}
