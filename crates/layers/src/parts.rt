// The parts of a pair's key and IV, apart and joined.
ghost use Rattle.std.specs.Prelude.{◌≡◌, ◌+◌, ◌≤◌, length, Some, None, MatchOption};
ghost use Rattle.generator.specs.Calls.{AtFront};
ghost use Rattle.layers.specs.Pair.{joined, parts, at_place};

use generator::Fault;

// What the first and the second are handed of a key or an IV.
pub(crate) fn split(whole: &[u8]) -> Option<(&[u8], &[u8])>
    ensures { MatchOption result (parts whole.now ≡ None) (λ p. parts whole.now ≡ Some (p.0.now, p.1.now)) }
{
    let (m, rest) = whole.split_first()?;
    let m = usize::from(*m);
    if m > rest.len() || rest.len() > 254 {
        return None;
    }
    Some(rest.split_at(m))
}

// Writes the key or the IV of which these are the parts to the front of a buffer, and answers its length.
pub(crate) fn join(buffer: &mut [u8], first: &[u8], second: &[u8]) -> usize
    requires { (length first.now + length second.now ≤ 254) × (255 ≤ length buffer.old) }
    ensures written { AtFront (joined first.now second.now) buffer.old buffer.new }
    ensures count { result ≡ length (joined first.now second.now) }
{
    let middle = 1 + first.len();
    let end = middle + second.len();
    buffer[0] = first.len() as u8;
    buffer[1..middle].copy_from_slice(first);
    buffer[middle..end].copy_from_slice(second);
    end
}

// The fault of a member, by the member's place in the pair.
pub(crate) fn at_place(fault: Fault, place: u8) -> Fault
    ensures { result ≡ at_place place fault }
{
    match fault {
        Fault::Key(_) => Fault::Key(place),
        Fault::Iv(_) => Fault::Iv(place),
    }
}
