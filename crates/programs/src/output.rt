// What a program writes, and whether it was granted.
ghost use Rattle.lines.specs.Entries.{entered};
ghost use Rattle.programs.specs.Answers.{Answer, Says, granted, output};
ghost use Rattle.programs.specs.Texts.{refusal_line};
ghost use Rattle.slot.specs.Refusals.{listing};
ghost use Rattle.std.specs.Prelude.{◌≡◌, IfOk, string_bytes, unwrap_or};

use crate::notice::Notice;
use crate::stop::Stop;
use lines::Entry;
use std::alloc::{AllocError, Global};

// Stays: an enum would hold a text in both its cases, and whoever writes the text would match on it to take it out.
#[derive(Drop)]
pub struct Output {
    pub text: String,
    pub granted: bool,
}

// The line of a refusal. It is made by a call, since the checker follows a value that could hold a loan only from a call.
fn refusal_entry(notice: Notice) -> Entry<'static>
    ensures { entered result ≡ refusal_line (listing notice.refusal).0 (listing notice.refusal).1 (unwrap_or notice.line 0xFFFF) }
{
    Entry::Refusal {
        number: notice.refusal.number(),
        carries: notice.refusal.carried() as u16,
        line: notice.line,
    }
}

// Puts what came into words: the text that is granted, or the line of the refusal.
pub(crate) fn say(heap: Global, came: Result<String, Stop>) -> Result<Output, AllocError>
    ensures { IfOk result (λ o. (a : Answer) × Says string_bytes came a × (string_bytes o.text ≡ output a) × (o.granted ≡ granted a)) }
{
    match came {
        Ok(text) => Ok(Output {
            text,
            granted: true,
        }),
        Err(Stop::Refused(notice)) => Ok(Output {
            text: refusal_entry(notice).text(heap)?,
            granted: false,
        }),
        Err(Stop::NoMemory) => Err(AllocError),
    }
}
