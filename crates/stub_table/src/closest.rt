//! The stub that covers a name.

ghost use Rattle.std.specs.Prelude.{◌≡◌, List, Some, None};
ghost use Rattle.dns_name.specs.Labels.{Labels};
ghost use Rattle.stub_table.specs.declared.stub.Stub.{Stub};
ghost use Rattle.stub_table.specs.Closest.{closest_stub, IsClosest, NoneCovers};

/// The closest stub of a name is the longest one at or above it. There is none only if no stub is at or above the name.
pub fn closest_law()
    ensures longest { (stubs : List Stub) (name : Labels) (stub : Stub) → closest_stub stubs name ≡ Some stub → IsClosest stubs name stub }
    ensures none { (stubs : List Stub) (name : Labels) → closest_stub stubs name ≡ None → NoneCovers stubs name }
{}
