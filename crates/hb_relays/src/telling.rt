//! Where the notes of a link go.

ghost use Rattle.hb_captured.specs.Part.{note_if};
ghost use Rattle.hb_link.specs.Noted.{Takes};

use hb_base::Note;
use hb_link::Notes;

/// A note is taken, where one was made.
pub(crate) fn tell<N: Notes>(made: Option<Note>, notes: &mut N)
    ensures { Takes (N.told notes.old) (note_if made) (N.told notes.new) }
{
    match made {
        None => {}
        Some(
            Note::Verdict {
                link,
                stream,
                status,
                peer,
                target,
            },
        ) => notes.verdict(link, stream, status, &peer, target),
        Some(
            Note::End {
                link,
                stream,
                cause,
                up,
                down,
            },
        ) => notes.end(link, stream, cause, up, down),
    }
}
