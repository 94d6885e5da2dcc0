//! Why bytes spell no book, as a number of C.

ghost use Rattle.std.specs.Prelude.{◌≡◌};
ghost use Rattle.at_c.specs.Why.{limit_number, why_number};

use at_files::BookWhy;
use at_ledger::BookError;

/// The number of a limit that a book would break.
fn number_of_limit(error: BookError) -> u32
    ensures { result ≡ limit_number error }
{
    match error {
        BookError::NoProcess => 8,
        BookError::TooManyProcesses => 9,
        BookError::NoAccount => 10,
        BookError::TooManyAccounts => 11,
        BookError::OwnerOutOfRange { account: _ } => 12,
        BookError::OwnersNotRising { account: _ } => 13,
        BookError::TooManyOwners { account: _ } => 14,
        BookError::RoomOutOfRange => 15,
        BookError::RoundsOverLimit { account: _ } => 16,
        BookError::TotalOverLimit { account: _ } => 17,
    }
}

/// The number of a cause.
pub(crate) fn number_of_why(why: BookWhy) -> u32
    ensures { result ≡ why_number why }
{
    match why {
        BookWhy::Version => 1,
        BookWhy::Shape => 2,
        BookWhy::Number => 3,
        BookWhy::AccountOrder => 4,
        BookWhy::Name => 5,
        BookWhy::NameTwice => 6,
        BookWhy::UnknownOwner => 7,
        BookWhy::Book(error) => number_of_limit(error),
    }
}
