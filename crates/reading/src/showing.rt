// Showing the payload of a read.
ghost use Rattle.std.specs.Prelude.{◌≡◌, length, Ok, Err};
ghost use Rattle.runs.specs.Reads.{shown_from};
ghost use Rattle.reading.specs.Show.{show_answer};

use block::Refusal;
use runs::Source;

// The 80 payload bytes of the buffer named, of two whole buffers.
pub(crate) fn payload_of<'a>(source: Source, found: &'a [u8], rebuilt: &'a [u8]) -> &'a [u8]
    requires found_long { length found.now ≡ 128 }
    requires rebuilt_long { length rebuilt.now ≡ 128 }
    ensures is { result.now ≡ shown_from source found.now rebuilt.now }
    ensures long { length result.now ≡ 80 }
{
    match source {
        Source::Found => &found[0..80],
        Source::Rebuilt => &rebuilt[0..80],
    }
}

// The 80 payload bytes of the buffer named; a buffer that is not 128 bytes long is refused.
pub fn show<'a>(source: Source, found: &'a [u8], rebuilt: &'a [u8]) -> Result<&'a [u8], Refusal>
    ensures { elim result [ Ok part ↦ Ok part.now ≡ show_answer source found.now rebuilt.now | Err e ↦ Err e ≡ show_answer source found.now rebuilt.now ] }
{
    if found.len() != 128 || rebuilt.len() != 128 {
        return Err(Refusal::Length);
    }
    Ok(payload_of(source, found, rebuilt))
}
