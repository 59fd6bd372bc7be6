//! The silences of the servers that were asked lately.

ghost use Rattle.std.specs.Prelude.{◌≡◌, ◌<◌, ◌≤◌, ◌↔◌, Any, IsSomeAnd, IsTrue};
ghost use Rattle.indexmap.specs.IndexMap.{get, index_map_len};
ghost use Rattle.outside.specs.declared.servers.TheConstants.{MOST_SERVERS};
ghost use Rattle.outside.specs.Silences.{answered_at, closed_at, tried_at, IsAnswering};
ghost use Rattle.outside.specs.Kept.{Changes};
ghost use Rattle.outside.specs.Pauses.{server_at, server_eq, known_silence, GivesWay, IsServerPaused, MissesAt, RemembersServer};

use crate::kept::{Notes, add};
use crate::server::Server;
use crate::silence::Silence;
use dns_name::Name;
use dns_query::Over;
use dns_text::Addr;

/// The most servers that a worker remembers.
pub const MOST_SERVERS: usize = 4_096;

/// The silence of each server that is remembered.
pub type SilentServers = Notes<Server, Silence>;

/// Whether a server is passed over for every question.
pub(crate) fn is_paused(servers: &SilentServers, server: &Server, now: u64) -> bool
    ensures { IsTrue result ↔ IsServerPaused server.now now servers.now }
{
    match servers.get(server) {
        Some(silence) => silence.pause.lasts(now),
        None => false,
    }
}

/// Whether a server answers: it did, and has left no query unanswered since.
fn answers(servers: &SilentServers, server: &Server) -> bool
    ensures { IsTrue result ↔ IsSomeAnd (get server_eq servers.now server.now) IsAnswering }
{
    match servers.get(server) {
        Some(silence) => silence.answers(),
        None => false,
    }
}

/// Whether one of these addresses answers, over a transport.
fn any_answers(servers: &SilentServers, addrs: &[Addr], over: Over) -> bool
    ensures { IsTrue result ↔ Any (λ addr. IsSomeAnd (get server_eq servers.now (server_at addr over)) IsAnswering) addrs.now }
{
    for addr in addrs {
        let server = Server { addr: *addr, over };
        if answers(servers, &server) {
            return true;
        }
    }
    false
}

/// Whether a server rests.
fn rests(servers: &SilentServers, server: &Server, now: u64) -> bool
    ensures { IsTrue result ↔ IsSomeAnd (get server_eq servers.now server.now) (λ silence. now < silence.rest.until) }
{
    match servers.get(server) {
        Some(silence) => silence.rests(now),
        None => false,
    }
}

/// Whether a server rests, and another of these addresses answers.
pub(crate) fn gives_way(servers: &SilentServers, server: &Server, others: &[Addr], now: u64) -> bool
    ensures { IsTrue result ↔ GivesWay server.now others.now now servers.now }
{
    rests(servers, server, now) && any_answers(servers, others, server.over)
}

/// Notes that a query to a server begins, which is a trial if the server was paused.
pub(crate) fn begin_trial(servers: &mut SilentServers, server: &Server, now: u64)
    ensures changes { Changes server_eq (tried_at now) server.now servers.old servers.new }
    ensures len { index_map_len servers.new ≡ index_map_len servers.old }
{
    let Some(silence) = servers.get_mut(server) else {
        return;
    };
    silence.begin_trial(now);
}

/// Notes that a server answered. It is not passed over any more.
pub(crate) fn answer(servers: &mut SilentServers, cursor: &mut usize, server: Server, now: u64)
    requires { index_map_len servers.old ≤ MOST_SERVERS }
    ensures remembers { RemembersServer now server (answered_at now) servers.old servers.new }
    ensures bound { index_map_len servers.new ≤ MOST_SERVERS }
{
    if let Some(silence) = servers.get_mut(&server) {
        *silence = Silence::answered(now);
        return;
    }
    add(
        servers,
        cursor,
        MOST_SERVERS,
        server,
        Silence::answered(now),
        now,
    );
}

/// Notes that a server left a query for a name unanswered.
pub(crate) fn miss(
    servers: &mut SilentServers,
    cursor: &mut usize,
    server: Server,
    name: Name,
    now: u64,
)
    requires { index_map_len servers.old ≤ MOST_SERVERS }
    ensures misses { MissesAt now server name servers.old servers.new }
    ensures bound { index_map_len servers.new ≤ MOST_SERVERS }
{
    if let Some(silence) = servers.get_mut(&server) {
        silence.miss(name, now);
        return;
    }
    let mut silence = Silence::unknown();
    silence.miss(name, now);
    add(servers, cursor, MOST_SERVERS, server, silence, now);
}

/// Notes that the port of a server is closed.
pub(crate) fn close(servers: &mut SilentServers, cursor: &mut usize, server: Server, now: u64)
    requires { index_map_len servers.old ≤ MOST_SERVERS }
    ensures remembers { RemembersServer now server (closed_at now (known_silence servers.old server)) servers.old servers.new }
    ensures bound { index_map_len servers.new ≤ MOST_SERVERS }
{
    if let Some(silence) = servers.get_mut(&server) {
        silence.close(now);
        return;
    }
    let mut silence = Silence::unknown();
    silence.close(now);
    add(servers, cursor, MOST_SERVERS, server, silence, now);
}
