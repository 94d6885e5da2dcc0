//! Where two texts part, and how many lines come before.

ghost use Rattle.std.specs.Prelude.{◌≡◌, ◌^◌, ◌<◌, length, None, IfSome};
ghost use Rattle.at_verify.specs.Right.{newlines};
ghost use Rattle.at_verify.specs.Walk.{ArePartedAt, DifferAt};

/// How many bytes the texts have in common from their beginnings on.
pub(crate) fn common(x: &[u8], y: &[u8]) -> usize
    ensures { ArePartedAt x.now y.now result }
{
    let most = x.len().min(y.len());
    for i in 0..most {
        if x[i] != y[i] {
            return i;
        }
    }
    most
}

/// Where the texts differ first, or nothing where they are the same.
pub(crate) fn difference(x: &[u8], y: &[u8]) -> Option<usize>
    ensures same { result ≡ None → x.now ≡ y.now }
    ensures differ { IfSome result (λ n. DifferAt x.now y.now n) }
{
    let same = common(x, y);
    let longest = x.len().max(y.len());
    if same < longest {
        return Some(same);
    }
    None
}

/// How many newlines the text has.
pub(crate) fn newlines(text: &[u8]) -> u32
    requires { length text.now < 2 ^ 32 }
    ensures { result ≡ newlines text.now }
{
    text.iter().filter(|byte| **byte == b'\n').count() as u32
}
