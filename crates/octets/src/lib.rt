#![tactic(auto)]

ghost use Rattle.std.specs.Prelude.{◌≡◌, ◌+◌, ◌<◌, ◌≤◌, ◌++◌, length, MatchBool, ◌≢◌};
ghost use Rattle.octets.specs.Octets.{written, zeros};

/// Whether every byte is zero.
pub fn is_zero(s: &[u8]) -> bool
    ensures { MatchBool result (s.now ≡ zeros (length s.now)) (s.now ≢ zeros (length s.now)) }
{
    s.iter().all(|b| *b == 0)
}

/// Writes `part` from `from` on; what does not fit is not written at all.
pub fn paste(bytes: &mut [u8], from: usize, part: &[u8])
    ensures fitting { from + length part.now ≤ length bytes.old
        → bytes.new ≡ written from part.now bytes.old }
    ensures other { length bytes.old < from + length part.now → bytes.new ≡ bytes.old }
{
    if from <= bytes.len() && part.len() <= bytes.len() - from {
        bytes[from..from + part.len()].copy_from_slice(part);
    }
}

/// One text after another, where they come to N bytes; else N zeros.
pub fn joined<const N: usize>(a: &[u8], b: &[u8]) -> [u8; N]
    ensures fitting { length a.now + length b.now ≡ N → result ≡ a.now ++ b.now }
    ensures other { length a.now + length b.now ≢ N → result ≡ zeros N }
{
    let mut out = [0; N];
    if a.len() <= N && b.len() == N - a.len() {
        paste(&mut out, 0, a);
        paste(&mut out, a.len(), b);
    }
    out
}
