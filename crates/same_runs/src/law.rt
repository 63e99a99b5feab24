// A law of what it is to end alike, as a contract.

ghost use Rattle.same_runs.specs.Follows.{FollowsIsSame};

/// Where the machine follows the meaning at each number of turns, the two do the same.
pub fn follows_is_same()
    ensures { FollowsIsSame }
{
    ir_code::law::results();
}
