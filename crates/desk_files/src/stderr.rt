//! Explanations on standard error.

use desk_subcommands::Teller;
use std::io::IsTerminal;
use std::rt::Stderr;

/// Explains on standard error why a request is refused, if that is asked for or is a terminal.
pub fn teller(rt: &HostRuntime, explain: bool) -> Teller<Stderr> {
    let stderr = rt.stderr();
    let is_told = explain || stderr.is_terminal();
    Teller::new(rt.alloc(), stderr, is_told)
}
