//! What each step of the table tells its seat.

ghost use Rattle.at_board.specs.Steps.Decide.{decided_round};
ghost use Rattle.at_board.specs.Steps.Plays.{announced_request, loaded_announced, loaded_length, loaded_request_word, loaded_word, published_record, stored_request_word, stored_word};

use crate::knowledge::Knowledge;
use atomic_table::{Join, Play, Split};

pub(crate) struct LoadLength;

impl Play<(), Knowledge> for LoadLength {
    ghost then = { loaded_length };
}

pub(crate) struct LoadWord;

impl Play<(), Knowledge> for LoadWord {
    ghost then = { loaded_word };
}

pub(crate) struct StoreWord;

impl Play<(), Knowledge> for StoreWord {
    ghost then = { stored_word };
}

pub(crate) struct Publish;

impl Play<(), Knowledge> for Publish {
    ghost then = { published_record };
}

pub(crate) struct LoadAnnounced;

impl Play<(), Knowledge> for LoadAnnounced {
    ghost then = { loaded_announced };
}

pub(crate) struct LoadRequestWord;

impl Play<(), Knowledge> for LoadRequestWord {
    ghost then = { loaded_request_word };
}

pub(crate) struct StoreRequestWord;

impl Play<(), Knowledge> for StoreRequestWord {
    ghost then = { stored_request_word };
}

pub(crate) struct Announce;

impl Play<(), Knowledge> for Announce {
    ghost then = { announced_request };
}

pub(crate) struct Decide;

impl Play<(), Knowledge> for Decide {
    ghost then = { decided_round };
}

pub(crate) struct Deal;

impl Split<Knowledge> for Deal {
    ghost use Rattle.at_board.specs.Ends.Opening.{first_part, other_parts};

    ghost left = { first_part };

    ghost right = { other_parts };
}

pub(crate) struct Note;

impl Split<Knowledge> for Note {
    ghost use Rattle.at_board.specs.Steps.Note.{noted};

    ghost left = { λ v. v };

    ghost right = { noted };
}

pub(crate) struct SeenAlone;

impl Split<Knowledge> for SeenAlone {
    ghost use Rattle.at_board.specs.Knowledge.Overviews.{seen_alone};

    ghost left = { λ v. v };

    ghost right = { seen_alone };
}

pub(crate) struct Learn;

impl Join<Knowledge> for Learn {
    ghost use Rattle.at_board.specs.Steps.Learn.{learned, spent_knowledge};

    ghost both = { learned };

    ghost spent = { spent_knowledge };
}

pub(crate) struct Gather;

impl Join<Knowledge> for Gather {
    ghost use Rattle.at_board.specs.Ends.Closing.{gathered};
    ghost use Rattle.at_board.specs.Steps.Learn.{spent_knowledge};

    ghost both = { gathered };

    ghost spent = { spent_knowledge };
}
