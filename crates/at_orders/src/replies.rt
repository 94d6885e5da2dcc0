//! The replies that one call has in the orders.

ghost use Rattle.std.specs.Prelude.{◌≡◌};

use at_ledger::Reply;

/// From the least balance to the greatest.
#[derive(Clone, Copy, Debug, PartialEq, Eq)]
pub struct Range {
    pub least: u64,
    pub greatest: u64,
}

/// The replies of one call: which of the four a payment has, or from where to where the balances of a read go.
#[derive(Clone, Copy, Debug, PartialEq, Eq)]
pub struct Replies {
    pub done: bool,
    pub short: bool,
    pub full: bool,
    pub not_owner: bool,
    pub balances: Option<Range>,
}

impl Range {
    ghost use Rattle.at_orders.specs.Replies.{range_with};

    /// The same range, and the balance in it.
    pub(crate) fn with(self, balance: u64) -> Range
        ensures { result ≡ range_with self balance }
    {
        Range {
            least: self.least.min(balance),
            greatest: self.greatest.max(balance),
        }
    }
}

impl Replies {
    ghost use Rattle.at_orders.specs.Replies.{no_replies, read_replies, replies_with};

    /// No reply.
    pub(crate) fn none() -> Replies
        ensures { result ≡ no_replies }
    {
        Replies {
            done: false,
            short: false,
            full: false,
            not_owner: false,
            balances: None,
        }
    }

    /// The balances of a read.
    pub(crate) fn of_read(range: Range) -> Replies
        ensures { result ≡ read_replies range }
    {
        let mut replies = Replies::none();
        replies.balances = Some(range);
        replies
    }

    /// The same replies, and this one.
    pub(crate) fn with(self, reply: Reply) -> Replies
        ensures { result ≡ replies_with self reply }
    {
        let mut replies = self;
        match reply {
            Reply::Done => replies.done = true,
            Reply::Short => replies.short = true,
            Reply::Full => replies.full = true,
            Reply::NotOwner => replies.not_owner = true,
            Reply::Balance(balance) => {
                replies.balances = Some(match self.balances {
                    None => Range {
                        least: balance,
                        greatest: balance,
                    },
                    Some(range) => range.with(balance),
                });
            }
        }
        replies
    }
}
