//! Laws of the definitions of texts, which callers may cite.

ghost use Rattle.std.specs.Prelude.{◌≡◌, ℕ};
ghost use Rattle.dns_text.specs.Ipv4.{ReadsIpv4};
ghost use Rattle.dns_text.specs.Ipv6.{IsIpv6Text, ReadsIpv6};
ghost use Rattle.dns_text.specs.String.{IsStringsText, ReadsStrings};
ghost use Rattle.dns_text.specs.Data.{IsDataText, ReadsData};
ghost use Rattle.dns_text.specs.Record.{IsRecordText, ReadsRecords};
ghost use Rattle.dns_text.specs.Laws.{StandsForOne};
ghost use Rattle.dns_text.specs.Written.{WritesNames, WritesNumbers, WritesTypes, WritesAddrs, WritesRecords};

use crate::addr::DEFAULT_PORT;
use crate::record_text::DEFAULT_TTL;
use crate::string::MOST_STRING;
use crate::ttl::MOST_TTL;
use crate::types::{
    A, AAAA, ANY, CNAME, DNAME, IXFR, MB, MD, MF, MG, MINFO, MR, MX, NAPTR, NS, OPT, PTR, SOA, SRV,
    TXT,
};

/// Reading a text gives the value that it stands for.
pub fn text_law()
    ensures ipv4 { ReadsIpv4 }
    ensures ipv6 { ReadsIpv6 }
    ensures strings { ReadsStrings }
    ensures data { ReadsData }
    ensures records { ReadsRecords }
{
    dns_name::text_law();
}

/// A text stands for one value at most.
pub fn one_meaning()
    ensures ipv6 { StandsForOne IsIpv6Text }
    ensures strings { StandsForOne IsStringsText }
    ensures data { (kind : ℕ) → StandsForOne (IsDataText kind) }
    ensures record { StandsForOne IsRecordText }
{
    text_law();
}

/// Written texts are words, which are read back anywhere in a line.
pub fn written_law()
    ensures names { WritesNames }
    ensures numbers { WritesNumbers }
    ensures types { WritesTypes }
    ensures addrs { WritesAddrs }
    ensures records { WritesRecords }
{}

/// A TTL is below 2^31 (RFC 2181, section 8), and a string has at most 255 octets (RFC 1035, section 3.3). A record without a TTL
/// has 3,600 seconds, and an address without a port has port 53 (RFC 1035, section 4.2).
pub fn limits_law()
    ensures ttl { MOST_TTL ≡ 2147483647 }
    ensures string { MOST_STRING ≡ 255 }
    ensures without_ttl { DEFAULT_TTL ≡ 3600 }
    ensures without_port { DEFAULT_PORT ≡ 53 }
{}

/// The number of each type is that of the RFC named at its constant.
pub fn types_law()
    ensures addresses { (A ≡ 1) × (AAAA ≡ 28) }
    ensures zones { (NS ≡ 2) × (SOA ≡ 6) }
    ensures aliases { (CNAME ≡ 5) × (PTR ≡ 12) × (DNAME ≡ 39) }
    ensures services { (MX ≡ 15) × (TXT ≡ 16) × (SRV ≡ 33) × (NAPTR ≡ 35) }
    ensures obsolete { (MD ≡ 3) × (MF ≡ 4) × (MB ≡ 7) × (MG ≡ 8) × (MR ≡ 9) × (MINFO ≡ 14) }
    ensures questions { (OPT ≡ 41) × (IXFR ≡ 251) × (ANY ≡ 255) }
{}
