//! Connections that are served one after another.

ghost use Rattle.std.specs.Prelude.{List};
ghost use Rattle.desk_http.specs.Connections.{Connection, AreAnswered, AreServed};

use desk_core::desk::Desk;

/// Connections that are answered one after another, each as `serve_one` or `serve_at` answers it,
/// get the replies of a script with the same requests as its lines: the commands among them are a
/// run of the desk, so what is proved of its history holds for them.
pub fn connections_are_lines<D: Desk>()
    ensures { (before : D) (connections : List Connection) (after : D)
        → AreAnswered D.are_right D.tells D.stands D.seen before connections after
        → AreServed D.are_right D.tells D.stands D.seen before connections after }
{}
