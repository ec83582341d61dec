ghost use Rattle.std.specs.Prelude.{◌≡◌, ◌≤◌};
ghost use Rattle.frame_carrier.specs.Frames.{frames_left};
ghost use Rattle.frame_carrier.specs.OverlaidFrames.{frames_under, overlay_of};
ghost use Rattle.dual_plans.specs.SecondLanes.{lanes_last_for};

use crate::second_lanes::SecondLanes;
use frame_carrier::{Overlaid, Plan};

/// The frames of a plan with second lanes.
pub type Dual = Overlaid<Plan, SecondLanes>;

/// The frames of a plan with second lanes, which last for all of them.
pub fn dual(plan: Plan, lanes: SecondLanes) -> Dual
    requires { frames_left plan ≤ lanes_last_for lanes }
    ensures frames { frames_under result ≡ plan }
    ensures overlay { overlay_of result ≡ lanes }
{
    Overlaid::new(plan, lanes)
}
