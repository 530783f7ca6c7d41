// The working space at the end of a step line.
ghost use Rattle.std.specs.Prelude.{◌≡◌, ◌+◌, ◌≤◌, length};
ghost use Rattle.filter.specs.Limits.{most_numbers};
ghost use Rattle.text_field.specs.Split.{split};
ghost use Rattle.text_step.specs.Spaces.{space_in, space_at, closed?};

use pixel::Space;
use text_field::lines::field;

// The space that a field says.
#[tactic(auto, unfolding(crate::specs::Spaces::space_in))]
pub fn space_in(f: &[u8]) -> Option<Space>
    ensures { result ≡ space_in f.now }
{
    match f {
        b"srgb" => Some(Space::Srgb),
        b"linear" => Some(Space::Linear),
        _ => None,
    }
}

// The space that field i says; linear where there is no such field.
pub fn space_at(line: &[u8], i: usize) -> Space
    ensures { result ≡ space_at (split 9 line.now) i }
{
    space_in(field(line, i)).unwrap_or(Space::Linear)
}

// Whether a line of n fields has as many as it needs, or a working space more.
pub fn is_closed(line: &[u8], n: usize, needed: usize) -> bool
    requires { (n ≡ length (split 9 line.now)) × (needed ≤ 24 + most_numbers) }
    ensures { result ≡ closed? needed (split 9 line.now) }
{
    n == needed || n == needed + 1 && space_in(field(line, needed)).is_some()
}
