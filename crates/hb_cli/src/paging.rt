//! The pages of the program's own.

ghost use Rattle.std.specs.Prelude.{◌≤◌};
ghost use Rattle.hb_words.specs.Page.{page_text};
ghost use Rattle.hb_cli.specs.Printing.{PrintsAt};
ghost use Rattle.hb_cli.specs.Use.{used};

use crate::answer::print_whole;
use crate::telling::tell;
use hb_base::Sink;
use hb_words::Page;
use std::alloc::Global;

/// Prints a page. Gives the status.
pub fn print_page<K: Sink, E: Sink>(alloc: Global, page: Page, out: &mut K, err: &mut E) -> u8
    ensures prints { PrintsAt (page_text page) (used K.written K.faults out.old out.new) (used E.written E.faults err.old err.new) result }
    ensures later_out { K.faults out.old ≤ K.faults out.new }
    ensures later_err { E.faults err.old ≤ E.faults err.new }
{
    let Ok(text) = page.text(alloc) else {
        return tell(err, b"hbone: out of memory\n", 9);
    };
    print_whole(text.as_bytes(), out, err)
}
