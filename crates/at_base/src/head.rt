//! Heads of records, and the words that stand for them.

ghost use Rattle.std.specs.Prelude.{◌≡◌, ◌^◌, ◌<◌};
ghost use Rattle.at_base.specs.Head.{HeadInRange, head_word};
ghost use Rattle.at_base.specs.declared.head.Head.{Head};

/// What a record is: `kind` 0 is a process's own transfer, whose round is 0, and `kind` 1 a round of the shared
/// account `from`. In range the kind is below 2, `from` and `to` are below 2^16 and the round is below 2^31.
/// In every record of the board `to` is 0.
#[derive(Clone, Copy, Debug, PartialEq, Eq)]
pub struct Head {
    pub kind: u32,
    pub from: u32,
    pub to: u32,
    pub round: u32,
}

/// The word of a head.
pub fn pack_head(h: &Head) -> u64
    requires { HeadInRange h.now }
    ensures word { result ≡ head_word h.now }
    ensures range { result < 2 ^ 64 }
{
    u64::from(h.kind)
        + 2 * u64::from(h.from)
        + (1 << 17) * u64::from(h.to)
        + (1 << 33) * u64::from(h.round)
}

/// The head of a word. Every word is the word of one head.
pub fn unpack_head(w: u64) -> Head
    ensures range { HeadInRange result }
    ensures word { head_word result ≡ w }
    ensures only { (h : Head) → HeadInRange h → head_word h ≡ w → h ≡ result }
{
    Head {
        kind: (w % 2) as u32,
        from: (w / 2 % (1 << 16)) as u32,
        to: (w / (1 << 17) % (1 << 16)) as u32,
        round: (w >> 33) as u32,
    }
}
