//! The limit of exchanges that a worker may have under way.

ghost use Rattle.std.specs.Prelude.{◌≡◌, ◌*◌, ◌-◌, ◌/◌, ◌≤◌, min};
ghost use Rattle.front_workers.specs.declared.filled_cells.TheConstants.{FREE_FOR_ZONE, LEAST_SHARE};
ghost use Rattle.outside.specs.declared.permits.TheConstants.{MOST_EQUAL};
ghost use Rattle.front.specs.declared.tcp.tcp_front.TheConstants.{MOST_KEPT, NETWORK_PART};
ghost use Rattle.front.specs.declared.tcp.marks.TheConstants.{MOST_WAITING};
ghost use Rattle.front.specs.declared.tcp.times.TheConstants.{MOST_IDLE, MOST_STUCK};
ghost use Rattle.outside.specs.declared.pause.TheConstants.{FIRST_PAUSE, LONGEST_PAUSE};
ghost use Rattle.outside.specs.declared.silence.TheConstants.{CLOSED_PAUSE, SILENT};
ghost use Rattle.outside.specs.declared.refused_zones.TheConstants.{MOST_REFUSALS, REFUSED_PAUSE};
ghost use Rattle.outside.specs.declared.servers.TheConstants.{MOST_SERVERS};
ghost use Rattle.outside.specs.declared.questions.TheConstants.{MOST_QUESTIONS};
ghost use Rattle.front_workers.specs.Descriptors.{FitBeside, SufficeFor};

/// The most exchanges that a worker has under way, however many descriptors the process may have.
pub const MOST_EXCHANGES: usize = 512;

/// The descriptors that are left for everything else: three for each of 16 workers, and 48 others. A worker holds its socket, its
/// poll and its waker, or both ends of a connection and the socket of an exchange. 34 others are connections of operators: 32 that
/// wait, one that is served, and one that is being accepted. Five are of the program itself.
pub const SPARE_DESCRIPTORS: u64 = 96;

/// The number of exchanges that each of so many workers may have under way, if the process may have so many descriptors.
/// Each exchange holds one.
pub fn most_exchanges(descriptors: u64, workers: u8) -> usize
    requires { 1 ≤ workers }
    ensures most { result ≡ min MOST_EXCHANGES ((descriptors - SPARE_DESCRIPTORS) / workers) }
    ensures room { result * workers ≤ descriptors - SPARE_DESCRIPTORS }
    ensures enough { SufficeFor workers result descriptors }
{
    let left = descriptors.saturating_sub(SPARE_DESCRIPTORS);
    (left / u64::from(workers)).min(MOST_EXCHANGES as u64) as usize
}

/// The most connections of clients that a worker holds, however many descriptors the process may have.
pub const MOST_CONNECTIONS: usize = 4096;

/// The number of connections that each of so many TCP workers may hold, if the process may have so many descriptors, and each of its
/// workers has so many exchanges. Each connection holds one.
pub fn most_connections(descriptors: u64, udp: u8, tcp: u8, exchanges: usize) -> usize
    requires some { 1 ≤ tcp }
    requires few { exchanges ≤ MOST_EXCHANGES }
    ensures most { result ≤ MOST_CONNECTIONS }
    ensures room { FitBeside result exchanges udp tcp descriptors }
{
    let workers = u64::from(udp) + u64::from(tcp);
    let held = exchanges as u64 * workers;
    let left = descriptors
        .saturating_sub(SPARE_DESCRIPTORS)
        .saturating_sub(held);
    (left / u64::from(tcp)).min(MOST_CONNECTIONS as u64) as usize
}

/// A worker has at most 512 exchanges under way, and all workers have 4 with one question. 96 descriptors are left for everything else.
/// A worker has at most 4,096 connections. One network has a quarter of them while others want places, and 32 questions of one connection
/// wait. What connections keep beyond what each may keep at rest is at most 24 MiB. One may be idle for ten seconds, and stuck for two.
///
/// A worker passes a server over for ten seconds at first and for a minute at most: for every question after two minutes of silence. It
/// passes one over for a second if its port is closed, and for a zone that it refused. It remembers 4,096 servers, 4,096 questions to
/// servers and 4,096 refusals. A zone may have an eighth as many cells as are free, and always 64.
pub fn limits_law()
    ensures exchanges { (MOST_EXCHANGES ≡ 512) × (MOST_EQUAL ≡ 4) }
    ensures spare { SPARE_DESCRIPTORS ≡ 96 }
    ensures connections { (MOST_CONNECTIONS ≡ 4096) × (NETWORK_PART ≡ 4) × (MOST_WAITING ≡ 32) }
    ensures kept { MOST_KEPT ≡ 25165824 }
    ensures times { (MOST_IDLE ≡ 10000) × (MOST_STUCK ≡ 2000) }
    ensures pauses { (FIRST_PAUSE ≡ 10000) × (LONGEST_PAUSE ≡ 60000) × (SILENT ≡ 120000) × (CLOSED_PAUSE ≡ 1000)
        × (REFUSED_PAUSE ≡ 1000) }
    ensures remembered { (MOST_SERVERS ≡ 4096) × (MOST_QUESTIONS ≡ 4096) × (MOST_REFUSALS ≡ 4096) }
    ensures shares { (FREE_FOR_ZONE ≡ 8) × (LEAST_SHARE ≡ 64) }
{}
