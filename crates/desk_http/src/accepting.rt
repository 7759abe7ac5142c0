//! Serves one connection after another.

ghost use Rattle.std.specs.Prelude.{◌≡◌, ◌≤◌, ◌<◌, List, Option, Some, length, Result, IfErr};
ghost use Rattle.desk_http.specs.Accepting.{AreCounted, IsCounted, failed_in, failures};
ghost use Rattle.desk_http.specs.Connections.{AreAnswered, Connection, IsConnected};
ghost use Rattle.desk_http.specs.declared.receiving.ServeFault.{ServeFault};
ghost use Rattle.desk_http.specs.declared.serving.Served.{Served};

use crate::receiving::ServeFault;
use crate::serving::{Served, serve_at};
use crate::table::RouteTable;
use desk_core::desk::Desk;
use std::alloc::Global;
use std::io::{Read, Write};

/// What accepts connections, and gets each back when it has ended.
pub trait Accept {
    /// What a connection is read from.
    type Reader: Read + Drop;

    /// What a connection is written to.
    type Writer: Write + Drop;

    /// What it means to accept a connection, or to fail to.
    ghost accepts: { Self → Option (Self.Reader × Self.Writer) → Self → Type 0 };

    /// What it means to get one back that ended in this way.
    ghost ends: { Self → Self.Reader × Self.Writer → Result Served ServeFault → Self → Type 0 };

    /// Waits for a connection, and accepts it. If it returns none, it has reported the failure.
    fn accept(&mut self) -> Option<(Self::Reader, Self::Writer)>
        ensures { accepts self.old result self.new };

    /// Takes back a connection that ended.
    fn ended(
        &mut self,
        connection: (Self::Reader, Self::Writer),
        ending: Result<Served, ServeFault>,
    )
        ensures { ends self.old connection ending self.new };
}

// How many failures an ending counts as.
fn failures(ending: &Result<Served, ServeFault>) -> u32
    ensures count { result ≡ failures ending.now }
    ensures one { result ≤ 1 }
{
    match ending {
        Ok(_) => 0,
        Err(_) => 1,
    }
}

// Serves the next connection, and returns how many failures that counts as.
fn serve_next<D: Desk, A: Accept>(
    alloc: Global,
    routes: &mut RouteTable,
    port: u16,
    desk: &mut D,
    connections: &mut A,
) -> u32
    ensures served { (c : Connection) × (c.port ≡ Some port)
        × IsConnected D.are_right D.tells D.stands D.seen c.port c.bytes c.told desk.old desk.new
        × IsCounted A.accepts A.ends A.Reader.remaining A.Writer.contents c connections.old result
        connections.new }
    ensures one { result ≤ 1 }
{
    let Some((mut reader, mut writer)) = connections.accept() else {
        return 1;
    };
    let ending = serve_at(alloc, routes, port, desk, &mut reader, &mut writer);
    let failed = failures(&ending);
    connections.ended((reader, writer), ending);
    failed
}

/// Serves this many connections to a port, one after another, and continues after those that fail.
/// The requests are answered as the lines of a script are (`connections_are_lines`).
///
/// # Errors
///
/// How many connections failed: those that couldn't be accepted, and those that ended with a fault.
pub fn serve<D: Desk, A: Accept>(
    alloc: Global,
    desk: &mut D,
    port: u16,
    limit: u32,
    connections: &mut A,
) -> Result<(), u32>
    ensures served { (cs : List Connection) × (length cs ≡ limit)
        × AreAnswered D.are_right D.tells D.stands D.seen desk.old cs desk.new
        × AreCounted A.accepts A.ends A.Reader.remaining A.Writer.contents port cs connections.old
        (failed_in result) connections.new }
    ensures failed { IfErr result (λ failed. 0 < failed) }
{
    let mut routes = RouteTable::new();
    let mut failed = 0;
    for turn in 0..limit {
        failed += serve_next(alloc, &mut routes, port, desk, connections);
    }
    if failed == 0 { Ok(()) } else { Err(failed) }
}
