//! Reasons to refuse a stub. Finding one takes no memory.

ghost use Rattle.std.specs.Prelude.{◌≡◌, ◌≤◌, length, nat_lt};
ghost use Rattle.stub_table.specs.Change.{stubs_with};
ghost use Rattle.stub_table.specs.Reason.{has_addrs, reason_of_stub};
ghost use Rattle.stub_table.specs.declared.table.TheConstants.{MOST_STUBS};

use crate::fault::StubFault;
use crate::stub::{MOST_ADDRS, Stub};
use crate::table::MOST_STUBS;
use named_list::NamedList;

/// Whether a stub has 1 to 8 addresses.
fn has_addrs(stub: &Stub) -> bool
    ensures { result ≡ has_addrs stub.now }
{
    let count = stub.addrs.as_slice().len();
    0 < count && count <= MOST_ADDRS
}

/// Whether there would be too many stubs with the new one.
fn has_no_room(stubs: &NamedList<Stub>, new: &Stub) -> bool
    requires { length stubs.now ≤ MOST_STUBS }
    ensures { result ≡ nat_lt MOST_STUBS (length (stubs_with new.now stubs.now)) }
{
    stubs.as_slice().len() == MOST_STUBS && !stubs.has(&new.name)
}

/// The reason to refuse a stub, if there is one.
pub(crate) fn reason_of_stub(stubs: &NamedList<Stub>, new: &Stub) -> Option<StubFault>
    requires { length stubs.now ≤ MOST_STUBS }
    ensures { result ≡ reason_of_stub new.now stubs.now }
{
    if !has_addrs(new) || has_no_room(stubs, new) {
        return Some(StubFault::TooMany);
    }
    None
}
