//! A profile of one's own.
ghost use Rattle.std.specs.Prelude.{◌≡◌};
ghost use Rattle.hpe_uses.specs.Profiles.{profile_with};

use hpe_base::{Fields, Profile, ProfileFault};

/// The built-in profile, but for frames of so many octets and for two octets a count.
///
/// The refusal names the first key whose value is out of its range, or the first rule between values that fails. Here
/// only the frames can be refused, for which 1 to 65,536 octets are allowed.
pub fn profile_with(frame_octets: i64) -> Result<Profile, ProfileFault>
    ensures { result ≡ profile_with frame_octets }
{
    // name what differs, and take the rest from the built-in profile
    Profile::new(&Fields {
        frame_octets,
        count_octets: 2,
        ..Fields::basic()
    })
}
