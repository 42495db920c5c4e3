//! What a request asks for.
ghost use Rattle.std.specs.Prelude.{◌≡◌};
ghost use Rattle.bt_engine.specs.Requests as requests;

use bt_frame::RESTORE;
use bt_packed::Question;

/// What a request asks for, by the kind of its frame.
#[derive(Clone, Copy, Drop)]
pub enum Request {
    /// Carries out a script.
    Script,
    /// Finds what each command of a script would do.
    Check,
    /// Applies packed changes.
    Apply,
    /// Replies to a question in packed bytes.
    Ask(Question),
    /// Finds why the first command of a script is refused because of its records.
    Explain,
    /// Makes the table of a snapshot.
    Restore,
}

/// What a frame of this kind asks for, if it is one of a request.
pub fn request_of(kind: u8) -> Option<Request>
    ensures { result ≡ requests.request_of kind }
{
    match kind {
        1 => Some(Request::Script),
        2 => Some(Request::Check),
        3 => Some(Request::Apply),
        4 => Some(Request::Ask(Question::Row)),
        5 => Some(Request::Ask(Question::Page)),
        6 => Some(Request::Ask(Question::LastPage)),
        7 => Some(Request::Ask(Question::Sums)),
        8 => Some(Request::Ask(Question::Columns)),
        9 => Some(Request::Ask(Question::Usage)),
        10 => Some(Request::Ask(Question::Trees)),
        11 => Some(Request::Explain),
        RESTORE => Some(Request::Restore),
        _ => None,
    }
}
