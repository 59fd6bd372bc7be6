//! The name servers that a worker passes over: for one question, or for every question.

ghost use Rattle.std.specs.Prelude.{◌≡◌, ◌≤◌, true, false, IfOk};
ghost use Rattle.indexmap.specs.IndexMap.{hasher_of, index_map_len};
ghost use Rattle.outside.specs.declared.servers.TheConstants.{MOST_SERVERS};
ghost use Rattle.outside.specs.declared.questions.TheConstants.{MOST_QUESTIONS};

use crate::asked::asked_at;
use crate::questions::{self, MOST_QUESTIONS, PausedQuestions};
use crate::server::Server;
use crate::servers::{self, MOST_SERVERS, SilentServers};
use cell_store::NameSeed;
use dns_query::Over;
use dns_text::{Addr, NoMemory};
use indexmap::IndexMap;
use std::alloc::Global;

/// What a worker remembers of at most `MOST_SERVERS` servers, and of at most `MOST_QUESTIONS` questions to servers. Moments are
/// in milliseconds, by one clock. What finds no memory or no room is not remembered.
#[derive(Drop)]
pub struct Pauses {
    pub servers: SilentServers,
    pub questions: PausedQuestions,
    server_cursor: usize,
    question_cursor: usize,
    ghost most_servers: { index_map_len servers ≤ MOST_SERVERS },
    ghost most_questions: { index_map_len questions ≤ MOST_QUESTIONS },
}

impl Pauses {
    ghost use Rattle.outside.specs.Hashing.{IsSeeded};
    ghost use Rattle.outside.specs.Pauses.{Answers, Closes, IsBlank, IsPassedOver, LetsThrough, Loses, Mistrusts};

    /// Remembers nothing. Nearly all memory of the tables is taken here. Their hashes begin with a seed that strangers do not know.
    pub fn new(alloc: Global, seed: u64) -> Result<Pauses, NoMemory>
        ensures blank { IfOk result IsBlank }
        ensures seed { IfOk result (λ pauses. IsSeeded seed pauses.servers × IsSeeded seed pauses.questions) }
    {
        let seed = NameSeed::new(u128::from(seed));
        Ok(Pauses {
            servers: IndexMap::with_capacity_and_hasher(alloc, MOST_SERVERS, seed)?,
            questions: IndexMap::with_capacity_and_hasher(alloc, MOST_QUESTIONS, seed)?,
            server_cursor: 0,
            question_cursor: 0,
        })
    }

    /// Forgets all. The memory of the tables is kept.
    pub fn forget(&mut self)
        ensures blank { IsBlank self.new }
        ensures servers { hasher_of self.new.servers ≡ hasher_of self.old.servers }
        ensures questions { hasher_of self.new.questions ≡ hasher_of self.old.questions }
    {
        self.servers.clear();
        self.questions.clear();
        self.server_cursor = 0;
        self.question_cursor = 0;
    }

    /// Whether a query to a server may begin now, if these others could be asked in its place. If a pause of the server or of the question
    /// is over, it is the trial after it.
    pub fn lets_through(
        &mut self,
        alloc: Global,
        server: &Addr,
        others: &[Addr],
        over: Over,
        query: &[u8],
        now: u64,
    ) -> bool
        ensures passed_over { result ≡ false → IsPassedOver server.now others.now over query.now now self.old × (self.new ≡ self.old) }
        ensures let_through { result ≡ true → LetsThrough server.now others.now over query.now now self.old self.new }
    {
        let server = Server {
            addr: *server,
            over,
        };
        if servers::is_paused(&self.servers, &server, now) {
            return false;
        }
        if servers::gives_way(&self.servers, &server, others, now) {
            return false;
        }
        let Some(question) = asked_at(alloc, server, query) else {
            servers::begin_trial(&mut self.servers, &server, now);
            return true;
        };
        if questions::is_paused(&self.questions, &question, now) {
            return false;
        }
        servers::begin_trial(&mut self.servers, &server, now);
        questions::begin_trial(&mut self.questions, &question, now);
        true
    }

    /// Notes that a server answered a query.
    pub fn note_answered(
        &mut self,
        alloc: Global,
        server: &Addr,
        over: Over,
        query: &[u8],
        now: u64,
    )
        ensures { Answers server.now over query.now now self.old self.new }
    {
        let server = Server {
            addr: *server,
            over,
        };
        servers::answer(&mut self.servers, &mut self.server_cursor, server, now);
        let Some(question) = asked_at(alloc, server, query) else {
            return;
        };
        questions::answer(&mut self.questions, &question);
    }

    /// Notes that a server left a query unanswered.
    pub fn note_unanswered(
        &mut self,
        alloc: Global,
        server: &Addr,
        over: Over,
        query: &[u8],
        now: u64,
    )
        ensures { Loses server.now over query.now now self.old self.new }
    {
        let server = Server {
            addr: *server,
            over,
        };
        let Some(question) = asked_at(alloc, server, query) else {
            return;
        };
        let Ok(copy) = question.owner.clone() else {
            return;
        };
        servers::miss(
            &mut self.servers,
            &mut self.server_cursor,
            server,
            copy,
            now,
        );
        questions::miss(
            &mut self.questions,
            &mut self.question_cursor,
            question,
            now,
        );
    }

    /// Notes that datagrams came in the place of a server's reply that cannot be it.
    pub fn note_misfits(&mut self, alloc: Global, server: &Addr, over: Over, query: &[u8], now: u64)
        ensures { Mistrusts server.now over query.now now self.old self.new }
    {
        let server = Server {
            addr: *server,
            over,
        };
        let Some(question) = asked_at(alloc, server, query) else {
            return;
        };
        questions::strike(
            &mut self.questions,
            &mut self.question_cursor,
            question,
            now,
        );
    }

    /// Notes that the port of a server is closed.
    pub fn note_closed(&mut self, server: &Addr, over: Over, now: u64)
        ensures { Closes server.now over now self.old self.new }
    {
        let server = Server {
            addr: *server,
            over,
        };
        servers::close(&mut self.servers, &mut self.server_cursor, server, now);
    }
}
