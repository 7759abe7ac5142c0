//! The desk over HTTP on 127.0.0.1: connections are served one after another, and a slow peer
//! doesn't keep the next one waiting for ever.

use desk_core::Desk;
use desk_http::{Accept, ServeFault, Served};
use desk_subcommands::{Failure, PortTrouble};
use std::alloc::Global;
use std::io::{self, Read, Write};
use std::net::{Ipv4Addr, TcpListener, TcpStream};
use std::time::{Duration, Instant};

/// How many seconds a peer has to send its request, and again to take the reply.
const PATIENCE: u64 = 10;

/// One direction of a connection, which fails when its time is up.
#[derive(Drop)]
struct Timed<'a> {
    rt: &'a HostRuntime,
    stream: TcpStream,
    since: Option<Instant>,
}

impl<'a> Timed<'a> {
    fn over(rt: &'a HostRuntime, stream: TcpStream) -> Timed<'a> {
        Timed {
            rt,
            stream,
            since: None,
        }
    }

    // What is left of the time, which starts with the first call.
    fn time_left(&mut self) -> io::Result<Duration> {
        let patience = Duration::from_secs(PATIENCE);
        match self.since {
            Some(since) => Ok(patience.saturating_sub(since.elapsed(self.rt)?)),
            None => {
                self.since = Some(Instant::now(self.rt)?);
                Ok(patience)
            }
        }
    }
}

impl Read for Timed<'_> {
    fn read(&mut self, buf: &mut [u8]) -> io::Result<usize> {
        let left = self.time_left()?;
        // (a time of zero is refused)
        self.stream.set_read_timeout(Some(left))?;
        self.stream.read(buf)
    }
}

impl Write for Timed<'_> {
    fn write(&mut self, buf: &[u8]) -> io::Result<usize> {
        let left = self.time_left()?;
        self.stream.set_write_timeout(Some(left))?;
        self.stream.write(buf)
    }

    fn flush(&mut self) -> io::Result<()> {
        Ok(())
    }
}

// Why a port can't be listened on, by what the system said.
fn port_trouble(error: &io::Error) -> PortTrouble {
    match error.kind() {
        io::ErrorKind::AddrInUse => PortTrouble::InUse,
        io::ErrorKind::PermissionDenied => PortTrouble::Denied,
        _ => PortTrouble::Refused,
    }
}

// Listens on a port of 127.0.0.1, or on a free one if it is 0, and says on which.
fn listen_on(rt: &HostRuntime, port: u16) -> Result<(TcpListener, u16), Failure> {
    let listener = match TcpListener::bind(rt, (Ipv4Addr::LOCALHOST, port)) {
        Ok(listener) => listener,
        Err(error) => return Err(Failure::Listen(port, port_trouble(&error))),
    };
    let bound = listener.local_addr()?.port();
    println!(rt; "listening on 127.0.0.1:{bound}")?;
    io::writer(rt).flush()?;
    Ok((listener, bound))
}

// Reports that a connection failed. If writing to standard error fails, the count at the end still
// says it.
fn tell_failure(rt: &HostRuntime, fault: ServeFault) {
    let _told = eprintln!(rt; "a connection failed: {fault}");
}

/// What listens on a port, and accepts connections there.
#[derive(Drop)]
struct Listening<'a> {
    rt: &'a HostRuntime,
    listener: TcpListener,
}

impl<'a> Listening<'a> {
    fn next(&self) -> io::Result<(Timed<'a>, Timed<'a>)> {
        let (stream, _) = self.listener.accept()?;
        let reader = Timed::over(self.rt, stream.try_clone()?);
        Ok((reader, Timed::over(self.rt, stream)))
    }
}

impl<'a> Accept for Listening<'a> {
    type Reader = Timed<'a>;

    type Writer = Timed<'a>;

    ghost accepts = { λ old result new. Unit {0} };

    ghost ends = { λ old connection ending new. Unit {0} };

    fn accept(&mut self) -> Option<(Timed<'a>, Timed<'a>)> {
        match self.next() {
            Ok(connection) => Some(connection),
            Err(_) => {
                tell_failure(self.rt, ServeFault::Read);
                None
            }
        }
    }

    fn ended(&mut self, connection: (Timed<'a>, Timed<'a>), ending: Result<Served, ServeFault>)
        ensures { Unit {0} }
    {
        drop(connection);
        if let Err(fault) = ending {
            tell_failure(self.rt, fault);
        }
    }
}

/// Serves this many connections, going on after those that fail, and returns the program's status.
pub fn serve<D: Desk>(
    rt: &HostRuntime,
    alloc: Global,
    desk: &mut D,
    port: u16,
    limit: u32,
) -> Result<u8, Failure> {
    let (listener, port) = listen_on(rt, port)?;
    let mut connections = Listening { rt, listener };
    match desk_http::serve(alloc, desk, port, limit, &mut connections) {
        Ok(()) => Ok(0),
        Err(failed) => Err(Failure::Connections(u64::from(failed))),
    }
}
