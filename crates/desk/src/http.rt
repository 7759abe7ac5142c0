//! Requests and replies, line by line and over HTTP.

pub use desk_http::{
    Reading, Request, RouteTable, ServeFault, Served, Shape, Status, reply, request, serve_at,
    serve_one,
};
pub use desk_json::{
    Request as LineRequest, bad_command_line, memory_line, read_command, reply_line,
};
pub use desk_script::{
    Reply as LineReply, ScriptEnd, ScriptFault, ScriptStop, Watch, script, watched_script,
};
