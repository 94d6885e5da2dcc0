//! Decisions, and the words that stand for them.

ghost use Rattle.std.specs.Prelude.{◌≡◌, ◌^◌, ◌<◌, ◌≢◌, ◌↔◌, Option, Some, None};
ghost use Rattle.at_base.specs.Decision.{InRange, IsNoDecision, word_of};
ghost use Rattle.at_base.specs.declared.decision.Decision.{Decision};

/// Request `number` of owner `slot` is decided: it succeeds where `ok`, and `place` is the length of the list
/// of publications at which its balance was looked at. In range the slot is below 8, the number below 1,024 and the place below 2^18.
#[derive(Clone, Copy, Debug, PartialEq, Eq)]
pub struct Decision {
    pub ok: bool,
    pub slot: u32,
    pub number: u32,
    pub place: u32,
}

/// The word of a decision, which is never 0: a cell that is undecided holds 0.
pub fn pack_decision(d: &Decision) -> u64
    requires { InRange d.now }
    ensures word { result ≡ word_of d.now }
    ensures decided { result ≢ 0 }
    ensures range { result < 2 ^ 64 }
{
    1 + u64::from(d.ok)
        + 2 * u64::from(d.slot)
        + 16 * u64::from(d.number)
        + (1 << 18) * u64::from(d.place)
}

/// The decision of a word, if it is one's.
pub fn unpack_decision(w: u64) -> Option<Decision>
    ensures found { (d : Decision) → result ≡ Some d → InRange d × (word_of d ≡ w) }
    ensures exact { (d : Decision) → InRange d → word_of d ≡ w → result ≡ Some d }
    ensures none { (result ≡ None) ↔ IsNoDecision w }
{
    let bits = w.checked_sub(1)?;
    let number = bits / 16 % (1 << 14);
    let place = bits >> 18;
    if number >= 1 << 10 || place >= 1 << 18 {
        return None;
    }
    Some(Decision {
        ok: bits % 2 == 1,
        slot: (bits / 2 % 8) as u32,
        number: number as u32,
        place: place as u32,
    })
}
