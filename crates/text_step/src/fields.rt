// The fields of a line by position, as numbers.
ghost use Rattle.std.specs.Prelude.{◌≡◌};
ghost use Rattle.text_field.specs.Split.{split};
ghost use Rattle.text_step.specs.Fields.{whole_field, whole_at, byte_field};

use text_field::lines::field;
use text_field::wholes::{byte_of, whole};

// Field i as a whole field.
pub fn whole_field(line: &[u8], i: usize) -> Option<usize>
    ensures { result ≡ whole_field (split 9 line.now) i }
{
    Some(whole(field(line, i))? as usize)
}

// The same, and 0 where it is none.
pub fn whole_at(line: &[u8], i: usize) -> usize
    ensures { result ≡ whole_at (split 9 line.now) i }
{
    whole_field(line, i).unwrap_or(0)
}

// Field i as a byte of a flood.
pub fn byte_field(line: &[u8], i: usize) -> Option<u8>
    ensures { result ≡ byte_field (split 9 line.now) i }
{
    byte_of(whole(field(line, i)))
}
