//! Workers that keep many questions in flight over sockets: they drive the sockets of clients and of name servers.
#![tactic(auto)]

// In the order in which to read them.

// The counters of a worker that others read while it works.
mod tally;
// The limit of exchanges that a worker may have under way.
mod limit;
// The permits of one worker's exchanges.
mod worker_permits;
// The cells that the workers filled, by zone.
mod filled_cells;
// The shares of zones in the cache.
mod zone_shares;
// How the workers of a service ask name servers.
mod asking;
// The seed of a worker's tables.
mod table_seed;
// The replies that report a fault.
mod report;
// The sockets of one worker.
mod worker_sockets;
// The turns of a worker.
mod turns;
// A worker that keeps many questions in flight.
mod udp_worker;
// A worker whose clients' messages come by connections.
mod tcp;

pub use asking::AskingTerms;
pub use limit::{
    MOST_CONNECTIONS, MOST_EXCHANGES, SPARE_DESCRIPTORS, limits_law, most_connections,
    most_exchanges,
};
pub use mio::Waker;
pub use plain_workers::{
    Exchange, Listener, Port, Tools, WorkEnd, run_task, serve_query, serve_stream, work_tcp,
    work_udp,
};
pub use replies::StreamFault;
pub use system::{Came, DeviceFault};
pub use table_seed::TableSeed;
pub use tally::{Sums, Tally};
pub use tcp::worker::{TcpWorker, fly_tcp};
pub use udp_worker::{UdpWorker, fly_udp};
pub use zone_shares::ZoneShares;
