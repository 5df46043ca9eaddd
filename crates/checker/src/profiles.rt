// Desk and board: the limits of each, and the profile's number in a state.
ghost use Rattle.std.specs.Prelude.{◌≡◌, ◌≢◌, IfOk, IfErr};
ghost use Rattle.checker.specs.Profile.{within_most, profile_number, profile_passes};
ghost use Rattle.checker.specs.declared.Profile.{Profile};

use crate::{Profile, limits};
use rule::limits::FRAME_LIMIT;

// The numbers that a state has: of the desk and of the board.
const DESK: u32 = 0;

const BOARD: u32 = 1;

impl From<Profile> for u32 {
    ghost from_gives = { λ profile number. number ≡ profile_number profile };

    fn from(profile: Profile) -> u32 {
        match profile {
            Profile::Desk => DESK,
            Profile::Board => BOARD,
        }
    }
}

// A number that no profile has.
#[derive(Clone, Copy, PartialEq, Eq, Debug)]
pub struct NoProfile;

impl TryFrom<u32> for Profile {
    type Error = NoProfile;

    ghost try_from_gives = { λ number r. IfOk r (λ profile. number ≡ profile_number profile)
        × IfErr r (λ _. (profile : Profile) → number ≢ profile_number profile) };

    fn try_from(number: u32) -> Result<Profile, NoProfile> {
        match number {
            DESK => Ok(Profile::Desk),
            BOARD => Ok(Profile::Board),
            _ => Err(NoProfile),
        }
    }
}

impl Profile {
    // Whether W and a number of frames are within its limits.
    pub(crate) fn admits(self, width: u32, n: usize) -> bool
        ensures { result ≡ within_most self width n }
    {
        match self {
            Profile::Desk => width <= limits::WIDTH_LIMIT && n <= FRAME_LIMIT,
            Profile::Board => {
                width <= limits::BOARD_WIDTH_LIMIT && n <= limits::BOARD_FRAME_LIMIT
            }
        }
    }
}

// Whether a number is that of a profile, and W and a number of frames are within its limits.
pub fn passes(number: u32, width: u32, n: usize) -> bool
    ensures { result ≡ profile_passes number width n }
{
    Profile::try_from(number).is_ok_and(|profile| profile.admits(width, n))
}
