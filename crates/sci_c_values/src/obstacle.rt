//! Why an event isn't enabled.

ghost use Rattle.std.specs.Prelude.{◌≡◌};
ghost use Rattle.sci_c_values.specs.Obstacle.{obstacle_number};

use sci_core::Obstacle;

/// The number of what stands in an event's way, 1 to 14 in the order in which it is looked for, and 0 for nothing.
pub fn obstacle_out(obstacle: Option<Obstacle>) -> u32
    ensures { result ≡ obstacle_number obstacle }
{
    match obstacle {
        None => 0,
        Some(Obstacle::NoSuchNode) => 1,
        Some(Obstacle::NoSuchSender) => 2,
        Some(Obstacle::NoSuchLine) => 3,
        Some(Obstacle::NoSuchWord) => 4,
        Some(Obstacle::AlreadyPending) => 5,
        Some(Obstacle::NoIssueLeft) => 6,
        Some(Obstacle::NothingPending) => 7,
        Some(Obstacle::NotAllowed) => 8,
        Some(Obstacle::NotAsked) => 9,
        Some(Obstacle::NoSlot) => 10,
        Some(Obstacle::NothingUnderWay) => 11,
        Some(Obstacle::AnswerWaits) => 12,
        Some(Obstacle::SetbackComes) => 13,
        Some(Obstacle::NoAnswerWaits) => 14,
    }
}
