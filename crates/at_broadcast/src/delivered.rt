//! The messages of one log by number.

ghost use Rattle.std.specs.Prelude.{◌≡◌, ◌<◌, ◌≤◌, length, slice_set, None, Some, IsSome, OnOk, OnErr, option_copied};
ghost use Rattle.at_broadcast.specs.Messages.{filled, message_at, no_messages};
ghost use Rattle.at_broadcast.specs.declared.message.TheConstants.{MESSAGES_MAX};

use crate::message::Message;
use std::alloc::{AllocError, Global};
use std::marker::Model;

/// As far as they were delivered. It takes memory up to the highest number.
#[derive(Drop)]
pub(crate) struct Delivered {
    list: Vec<Option<Message>>,
}

impl Model for Delivered {
    ghost use Rattle.std.specs.Prelude.{◌≤◌, length};
    ghost use Rattle.at_broadcast.specs.Messages.{MessageList, filled};
    ghost use Rattle.at_broadcast.specs.declared.message.TheConstants.{MESSAGES_MAX};

    ghost Value = { MessageList };

    ghost view = { λ d. filled d.list.items };

    ghost invariant = { λ d. length d.list.items ≤ MESSAGES_MAX };
}

impl Delivered {
    /// No message of any number.
    pub(crate) fn new(alloc: Global) -> Delivered
        ensures { result ≡ no_messages }
    {
        Delivered {
            list: Vec::new(alloc),
        }
    }

    /// The message of this number, if it was delivered.
    pub(crate) fn get(&self, number: u32) -> Option<&Message>
        ensures { option_copied result ≡ message_at self.now number }
    {
        message_in(self.list.as_slice(), number)
    }

    /// Keeps a message.
    pub(crate) fn put(&mut self, number: u32, message: &Message) -> Result<(), AllocError>
        requires { number < MESSAGES_MAX }
        ensures ok { OnOk result (self.new ≡ slice_set self.old number (Some message.now)) }
        ensures err { OnErr result (self.new ≡ self.old) }
    {
        fill(&mut self.list, number)?;
        self.list[number as usize] = Some(message.copy());
        Ok(())
    }

    /// Lets a message go.
    pub(crate) fn remove(&mut self, number: u32)
        requires { IsSome (message_at self.old number) }
        ensures { self.new ≡ slice_set self.old number None }
    {
        self.list[number as usize] = None;
    }
}

/// The message at this place of a list, if one is there.
fn message_in(list: &[Option<Message>], number: u32) -> Option<&Message>
    ensures { option_copied result ≡ message_at list.now number }
{
    list.get(number as usize)?.as_ref()
}

/// Makes a place for the message of this number, where none was delivered that far.
fn fill(messages: &mut Vec<Option<Message>>, number: u32) -> Result<(), AllocError>
    requires number { number < MESSAGES_MAX }
    requires few { length messages.old.items ≤ MESSAGES_MAX }
    ensures same { filled messages.new.items ≡ filled messages.old.items }
    ensures few { length messages.new.items ≤ MESSAGES_MAX }
    ensures place { OnOk result (number < length messages.new.items) }
{
    for _place in messages.len()..number as usize + 1 {
        messages.push(None)?;
    }
    Ok(())
}
