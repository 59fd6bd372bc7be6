//! The zone that covers a name.

ghost use Rattle.std.specs.Prelude.{◌≡◌, List, Some, None};
ghost use Rattle.dns_name.specs.Labels.{Labels};
ghost use Rattle.local_zone.specs.declared.zone.Zone.{Zone};
ghost use Rattle.local_zone.specs.Closest.{closest, IsClosest, NoneCovers};

/// The closest zone of a name is the longest one at or above it. There is none only if no zone is at or above the name.
pub fn closest_law()
    ensures longest { (zones : List Zone) (name : Labels) (zone : Zone) → closest zones name ≡ Some zone → IsClosest zones name zone }
    ensures none { (zones : List Zone) (name : Labels) → closest zones name ≡ None → NoneCovers zones name }
{}
